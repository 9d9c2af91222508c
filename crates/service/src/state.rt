// What the service holds: its store, its rule, and a row for each writer and each reader.
ghost use Rattle.std.specs.Prelude.{MatchResult};
ghost use Rattle.rows.specs.declared.fault.Fault.TheVariants as fault;
ghost use Rattle.rows.specs.Rows.{empty_row, empty_read_row};
ghost use Rattle.service.specs.Meaning.{IsRow, IsBeyond};

use rows::{Fault, OrderRow, ReadRow};

// One table for orders and one for reads: a generic struct may hold no array of a type parameter, and `row` is one expression.
#[derive(Clone, Copy)]
pub struct OrderTable {
    pub rows: [OrderRow; 16],
}

#[derive(Clone, Copy)]
pub struct ReadTable {
    pub rows: [ReadRow; 16],
}

#[derive(Drop)]
pub struct Service<S, N> {
    pub store: S,
    pub rule: N,
    pub orders: OrderTable,
    pub reads: ReadTable,
}

impl OrderTable {
    // The row of a writer, or refusal 10.
    pub fn row(&self, writer: u8) -> Result<&OrderRow, Fault>
        ensures { MatchResult result (λ row. IsRow self.now.rows empty_row writer row.now) (IsBeyond writer fault.Writer) }
    {
        self.rows.get(usize::from(writer)).ok_or(Fault::Writer)
    }
}

impl ReadTable {
    // The row of a reader, or refusal 21.
    pub fn row(&self, reader: u8) -> Result<&ReadRow, Fault>
        ensures { MatchResult result (λ row. IsRow self.now.rows empty_read_row reader row.now) (IsBeyond reader fault.Reader) }
    {
        self.rows.get(usize::from(reader)).ok_or(Fault::Reader)
    }
}
