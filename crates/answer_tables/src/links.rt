//! The links of a table's default and exceptions.

ghost use Rattle.std.specs.Prelude.{◌≡◌, ◌++◌, ◌↔◌, ℕ, List, IfOk, OnOk, replicate};
ghost use Rattle.std.specs.List.{Contains};
ghost use Rattle.answer_tables.specs.Table.{HasAntichain, links_of};

use crate::Memory;
use crate::table::Table;
use formula_store::Link;
use std::alloc::Global;

/// Puts so many links of a antichain last.
fn push_copies(links: &mut Vec<Link>, link: &Link, count: u64) -> Result<(), Memory>
    ensures { OnOk result (links.new.items ≡ links.old.items ++ replicate count link.now) }
{
    for _ in 0..count {
        links.push(link.copy()?)?;
    }
    Ok(())
}

impl Table {
    /// A link of the default's antichain, if there is a default, then one of each exception's
    /// antichain, in rising order of their tuples. Their antichains are exactly those of the
    /// tuples.
    pub fn links(&self, alloc: Global) -> Result<Vec<Link>, Memory>
        ensures links { IfOk result (λ links. links.items ≡ links_of self.now) }
        ensures exact { IfOk result (λ links. (antichain : List ℕ)
            → Contains links.items antichain ↔ HasAntichain self.now antichain) }
    {
        let mut links = Vec::new(alloc);
        if self.ranks.len() == 0 {
            return Ok(links);
        }
        let usual = self.ranks.run(0).link;
        links.push(self.links[usual].copy()?)?;
        let mut start = 0;
        for place in 0..self.ranks.len() {
            let run = self.ranks.run(place);
            if run.link != usual {
                push_copies(&mut links, &self.links[run.link], run.end - start)?;
            }
            start = run.end;
        }
        Ok(links)
    }
}
