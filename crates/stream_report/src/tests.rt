//! Tests of the public calls, and the worked examples.

ghost use Rattle.std.specs.Prelude.{◌≡◌, ◌+◌, ◌%◌, ℕ, [], ◌∷◌};

use super::*;
use edge_io::{MemSink, MemSource, Memory};
use std::alloc::Global;
use std::test::Fail;

/// Writes a mark for each line, and then the last digit of their count.
#[derive(Drop)]
struct Counter {
    count: u64,
}

impl Reporter for Counter {
    ghost State = { ℕ };

    ghost Task = { ℕ };

    ghost manner = { λ mark. record {
      opening = 58 ∷ [];
      step = λ state number line told after. (told ≡ mark ∷ []) × (after ≡ state + 1);
      closes = λ state last. last ≡ (48 + state % 10) ∷ [];
    } };

    ghost task = { λ _. 35 };

    ghost stands = { λ counter state. counter.count ≡ state };

    ghost counted = { λ counter. counter.count };

    fn open(&self, gathered: &mut Vec<u8>) -> Result<(), Memory> {
        gathered.push(b':')?;
        Ok(())
    }

    fn report_line(
        &mut self,
        number: u64,
        line: GivenLine<'_>,
        gathered: &mut Vec<u8>,
    ) -> Result<(), Memory> {
        gathered.push(b'#')?;
        self.count += 1;
        Ok(())
    }

    fn finish(&self, gathered: &mut Vec<u8>) -> Result<(), Memory> {
        gathered.push(b'0' + (self.count % 10) as u8)?;
        Ok(())
    }
}

/// How the count of three lines ends, and what it writes, where these reads and writes fail.
fn counted(alloc: Global, reads: &[u64], writes: &[u64]) -> Result<(Ending<bool>, Vec<u8>), Fail> {
    let mut input = MemSource::new(b"ab\n\nc".to_vec(alloc)?, 2, reads.to_vec(alloc)?);
    let mut out = MemSink::new(alloc, 64, 1, writes.to_vec(alloc)?)?;
    let mut counter = Counter { count: 0 };
    let ending = report_stream(alloc, &mut counter, &mut input, &mut out);
    Ok((ending, out.bytes().to_vec(alloc)?))
}

#[test]
fn what_is_told_is_written_before_a_fault(rt: HostRuntime) -> Result<(), Fail> {
    let alloc = rt.alloc();
    for (reads, writes, wanted, text) in [
        ([0], [0], Ending::Done, b":###3".as_slice()),
        ([3], [0], Ending::ReadFault, b":##".as_slice()),
        ([0], [2], Ending::WriteFault, b":".as_slice()),
    ] {
        let (ending, wrote) = counted(alloc, &reads, &writes)?;
        assert_eq!(rt; ending, wanted);
        assert_eq!(rt; wrote.as_slice(), text);
    }
    Ok(())
}
