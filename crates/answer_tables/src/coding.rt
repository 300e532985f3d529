//! Pairs of small numbers, numbered by bytes.

ghost use Rattle.std.specs.Prelude.{◌≡◌, ◌<◌, ◌+◌, ◌*◌, [], IfOk, IfSome, length};
ghost use Rattle.answer_tables.specs.Coding.{IsCoding};
ghost use Rattle.answer_tables.specs.Numbering.{Numbered};

use crate::Memory;
use crate::align::Joint;
use std::alloc::Global;

/// The byte of a code that no joint has yet.
const NONE: u8 = 255;

/// The most numbers that bytes tell.
const MANY: usize = 256;

/// The joints that came so far, and the byte of each by its code: its first number times the width,
/// and its second.
#[derive(Drop)]
pub struct Coding {
    pub joints: Vec<Joint>,
    codes: Vec<u8>,
    width: u16,
}

impl Coding {
    /// No joints yet; there are so many first and second numbers.
    pub fn new(alloc: Global, firsts: usize, seconds: usize) -> Result<Coding, Memory>
        ensures joints { IfOk result (λ c. c.joints.items ≡ []) }
        ensures coding { IfOk result (λ c. IsCoding c.joints.items c.codes.items c.width) }
    {
        let width = seconds.min(MANY) as u16;
        let count = firsts.min(MANY) * width as usize;
        let codes = vec![in alloc; NONE; count]?;
        Ok(Coding {
            joints: Vec::new(alloc),
            codes,
            width,
        })
    }

    /// The byte of the two numbers, which is that of a new joint at the rank where they are met
    /// first, or none where no byte is left.
    pub fn byte(&mut self, first: u8, second: u8, rank: u64) -> Result<Option<u8>, Memory>
        requires { IsCoding self.old.joints.items self.old.codes.items self.old.width }
        ensures coding { IfOk result (λ found.
            IfSome found (λ byte. IsCoding self.new.joints.items self.new.codes.items
            self.new.width)) }
        ensures numbered { IfOk result (λ found.
            IfSome found (Numbered self.old.joints.items
            (record { first = first; second = second; rank = rank }) self.new.joints.items)) }
    {
        let code = first as usize * self.width as usize + second as usize;
        if second as u16 >= self.width || code >= self.codes.len() {
            return Ok(None);
        }
        let byte = self.codes[code];
        if byte != NONE {
            return Ok(Some(byte));
        }
        self.further(first, second, rank, code)
    }

    /// The byte of a joint that goes last, if one is left.
    fn further(
        &mut self,
        first: u8,
        second: u8,
        rank: u64,
        code: usize,
    ) -> Result<Option<u8>, Memory>
        requires coding { IsCoding self.old.joints.items self.old.codes.items self.old.width }
        requires code { code ≡ first * self.old.width + second }
        requires below { second < self.old.width }
        requires within { code < length self.old.codes.items }
        ensures coding { IfOk result (λ found.
            IfSome found (λ byte. IsCoding self.new.joints.items self.new.codes.items
            self.new.width)) }
        ensures numbered { IfOk result (λ found.
            IfSome found (Numbered self.old.joints.items
            (record { first = first; second = second; rank = rank }) self.new.joints.items)) }
    {
        let place = self.joints.len();
        if place >= NONE as usize {
            return Ok(None);
        }
        let byte = place as u8;
        self.joints.push(Joint {
            first: first as usize,
            second: second as usize,
            rank,
        })?;
        self.codes[code] = byte;
        Ok(Some(byte))
    }
}
