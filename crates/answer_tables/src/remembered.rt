//! The last operation at a place, and the table that it gave.

ghost use Rattle.answer_tables.specs.Combining.{test_of};
ghost use Rattle.answer_tables.specs.Made.{IsCombination, IsSubstitution, IsMarking};

use crate::combine::Operation;
use crate::table::Table;
use dl_syntax::Tuples;

/// Two tables and their combination.
#[derive(Drop)]
pub struct Combined {
    pub operation: Operation,
    pub first: Table,
    pub second: Table,
    pub table: Table,
    ghost gave: { IsCombination (test_of operation) first second table },
}

/// A table and the values of its nodes, and the table with the values in their places.
#[derive(Drop)]
pub struct Substituted {
    pub old: Table,
    pub values: Vec<Table>,
    pub table: Table,
    ghost gave: { IsSubstitution old values.items table },
}

/// Rows, and the table that is true at them.
#[derive(Drop)]
pub struct Marked {
    pub slots: u32,
    pub arity: u8,
    pub places: Vec<u8>,
    pub rows: Tuples,
    pub table: Table,
    ghost gave: { IsMarking slots arity places.items rows table },
}

/// What is remembered at a place.
#[derive(Drop)]
pub enum Remembered {
    Nothing,
    Combined(Combined),
    Substituted(Substituted),
    Marked(Marked),
}
