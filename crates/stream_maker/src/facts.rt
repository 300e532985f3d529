//! The lines of a stream.

ghost use Rattle.std.specs.Prelude.{◌≡◌, ◌++◌, ◌<◌, OnOk, OnErr, take, vec_len};
ghost use Rattle.stream_maker.specs.Draws.{after};
ghost use Rattle.stream_maker.specs.Snapshots.{holder, concept_text, role_text, even_text};
ghost use Rattle.stream_maker.specs.Snapshots.{even_end, odd_text, odd_end, pair_text, pair_end};
ghost use Rattle.stream_maker.specs.Snapshots.{pairs_text, snapshot_text, snapshot_end};

use crate::Memory;
use crate::draws::Generator;
use crate::numbers::append_numbered;

/// The individual of a fact of this concept: one of the first 30 for a concept below 20, else one
/// of the next 30.
fn holder_of(concept: u32, number: u32) -> u32
    requires { number < 30 }
    ensures { result ≡ holder concept number }
{
    if concept < 20 { number } else { 30 + number }
}

/// Appends a space and a fact of a concept.
fn append_concept(out: &mut Vec<u8>, concept: u32, individual: u32) -> Result<(), Memory>
    ensures ok { OnOk result (out.new.items ≡ out.old.items ++ concept_text concept individual) }
    ensures kept { take (vec_len out.old) out.new.items ≡ out.old.items }
{
    append_numbered(out, b" C", concept)?;
    append_numbered(out, b"(i", individual)?;
    out.extend_from_slice(b")")
}

/// Appends a space and a fact of a role.
fn append_role(out: &mut Vec<u8>, role: u32, first: u32, second: u32) -> Result<(), Memory>
    ensures ok { OnOk result (out.new.items ≡ out.old.items ++ role_text role first second) }
    ensures kept { take (vec_len out.old) out.new.items ≡ out.old.items }
{
    append_numbered(out, b" r", role)?;
    append_numbered(out, b"(i", first)?;
    append_numbered(out, b",i", second)?;
    out.extend_from_slice(b")")
}

impl Generator {
    /// Appends a space and a fact of a concept, of two draws.
    fn append_even(&mut self, out: &mut Vec<u8>) -> Result<(), Memory>
        ensures ok { OnOk result (out.new.items ≡ out.old.items ++ even_text self.old.state) }
        ensures kept { take (vec_len out.old) out.new.items ≡ out.old.items }
        ensures advanced { self.new.state ≡ even_end self.old.state }
    {
        let concept = self.draw(40);
        let number = self.draw(30);
        append_concept(out, concept, holder_of(concept, number))
    }

    /// Appends a space and a fact of a role, of three draws.
    fn append_odd(&mut self, out: &mut Vec<u8>) -> Result<(), Memory>
        ensures ok { OnOk result (out.new.items ≡ out.old.items ++ odd_text self.old.state) }
        ensures kept { take (vec_len out.old) out.new.items ≡ out.old.items }
        ensures advanced { self.new.state ≡ odd_end self.old.state }
    {
        let role = self.draw(15);
        let first = self.draw(30);
        let second = self.draw(30);
        append_role(out, role, first, 30 + second)
    }

    /// Appends an even fact and an odd one.
    fn append_pair(&mut self, out: &mut Vec<u8>) -> Result<(), Memory>
        ensures ok { OnOk result (out.new.items ≡ out.old.items ++ pair_text self.old.state) }
        ensures kept { take (vec_len out.old) out.new.items ≡ out.old.items }
        ensures advanced { OnOk result (self.new.state ≡ pair_end self.old.state) }
    {
        self.append_even(out)?;
        self.append_odd(out)
    }

    /// Appends 25 pairs of facts.
    fn append_pairs(&mut self, out: &mut Vec<u8>) -> Result<(), Memory>
        ensures ok { OnOk result (out.new.items ≡ out.old.items ++ pairs_text self.old.state 25) }
        ensures kept { take (vec_len out.old) out.new.items ≡ out.old.items }
        ensures advanced { OnOk result (self.new.state ≡ after pair_end self.old.state 25) }
    {
        for pair in 0..25_u32 {
            self.append_pair(out)?;
        }
        Ok(())
    }

    /// Appends the line of one snapshot. What stood before stays, also on an error.
    fn try_append_snapshot(&mut self, out: &mut Vec<u8>) -> Result<(), Memory>
        ensures ok { OnOk result (out.new.items ≡ out.old.items ++ snapshot_text self.old.state) }
        ensures kept { take (vec_len out.old) out.new.items ≡ out.old.items }
        ensures advanced { OnOk result (self.new.state ≡ snapshot_end self.old.state) }
    {
        out.extend_from_slice(b"snap")?;
        self.append_pairs(out)?;
        out.extend_from_slice(b"\n")
    }

    /// Appends the line of the next snapshot, `snap` and 50 facts. The buffer and the generator are
    /// as before where memory runs out.
    pub fn append_snapshot(&mut self, out: &mut Vec<u8>) -> Result<(), Memory>
        ensures ok { OnOk result (out.new.items ≡ out.old.items ++ snapshot_text self.old.state) }
        ensures advanced { OnOk result (self.new.state ≡ snapshot_end self.old.state) }
        ensures err { OnErr result (out.new.items ≡ out.old.items) }
        ensures err_state { OnErr result (self.new.state ≡ self.old.state) }
    {
        let start = out.len();
        let state = self.state;
        let done = self.try_append_snapshot(out);
        if done.is_err() {
            out.truncate(start);
            self.state = state;
        }
        done
    }
}
