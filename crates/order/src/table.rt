// An order given by a table.
ghost use Rattle.std.specs.Prelude.{◌≡◌, ℕ, ◌<◌, ◌≤◌, ◌↔◌, true, false, IsTrue, MatchOption};
ghost use Rattle.order.specs.Orders.{table_entry, among, PartialOrder, PairOrdered};
ghost use Rattle.order.specs.OrderLaws.{among_inside, order_among};

use crate::Order;
use event::Level;

// A table of up to eight levels: row a, column b says whether a is below b. It is of fixed size, and
// the number of levels stands beside it: rows with lengths of their own could be of different lengths.
pub type Rows = [[bool; 8]; 8];

// An order by its table, which no value of this type has without the properties of a partial order. It has
// no `impl Model`: clauses name its number of levels and its table, which is all that there is.
#[derive(Drop)]
pub struct OrderTable {
    levels: usize,
    rows: Rows,
    ghost some: { 1 ≤ levels },
    ghost few: { levels ≤ 8 },
    ghost ordered: { PartialOrder levels (table_entry rows) },
}

impl OrderTable {
    ghost use Rattle.order.specs.OrderTables.{level_count, table_rows};

    // The order of one level, which is below itself.
    pub fn single() -> OrderTable
        ensures levels { level_count result ≡ 1 }
        ensures below { IsTrue (table_entry (table_rows result) 0 0) }
    {
        OrderTable {
            levels: 1,
            rows: [[true; 8]; 8],
        }
    }

    // The order of a table on the first `levels` levels, or nothing where it is none or they are not 1 to 8.
    pub fn new(levels: usize, rows: Rows) -> Option<OrderTable>
        ensures { MatchOption result ((1 ≤ levels) × (levels ≤ 8) × PartialOrder levels (table_entry rows) → ⊥) (λ t. (level_count t ≡ levels) × (table_rows t ≡ rows)) }
    {
        if !(1..=8).contains(&levels) {
            return None;
        }
        let relation = Relation {
            levels,
            rows: &rows,
        };
        if !relation.is_partial_order() {
            return None;
        }
        Some(OrderTable { levels, rows })
    }
}

impl Order for OrderTable {
    ghost use Rattle.order.specs.OrderTables.{level_count, table_rows};

    ghost size = { level_count };

    ghost under = { λ s. among (level_count s) (table_entry (table_rows s)) };

    ghost lawful = { λ s. order_among _ _ s.ordered };

    ghost inside = { λ s a b. among_inside (level_count s) (table_entry (table_rows s)) a b };

    fn levels(&self) -> usize {
        self.levels
    }

    fn below(&self, a: Level, b: Level) -> bool {
        a < self.levels && b < self.levels && self.rows[a][b]
    }
}

// A relation on the first `levels` levels of a table. It is no `OrderTable`, which does not exist before the
// table was found to be an order. Two levels stay two arguments: a pair of them is no value of its own.
#[derive(Clone, Copy)]
struct Relation<'a> {
    levels: usize,
    rows: &'a Rows,
}

impl Relation<'_> {
    // Whether a is below b by the table, which says false beyond its end.
    fn below(&self, a: Level, b: Level) -> bool
        ensures { result ≡ table_entry self.now.rows.now a b }
    {
        let rows = self.rows;
        rows.get(a).is_some_and(|row| row.get(b) == Some(&true))
    }

    // Whether the relation is a partial order.
    fn is_partial_order(&self) -> bool
        ensures { IsTrue result ↔ PartialOrder self.now.levels (table_entry self.now.rows.now) }
    {
        (0..self.levels).all(|a| self.is_row_ordered(a))
    }

    // Whether level a and each level are as a partial order has them.
    fn is_row_ordered(&self, a: Level) -> bool
        ensures { IsTrue result ↔ ((b : ℕ) → b < self.now.levels → PairOrdered self.now.levels (table_entry self.now.rows.now) a b) }
    {
        (0..self.levels).all(|b| self.is_pair_ordered(a, b))
    }

    // Whether levels a and b are as a partial order has them.
    fn is_pair_ordered(&self, a: Level, b: Level) -> bool
        ensures { IsTrue result ↔ PairOrdered self.now.levels (table_entry self.now.rows.now) a b }
    {
        if a == b {
            return self.below(a, b);
        }
        !self.below(a, b) || !self.below(b, a) && self.is_transitive_at(a, b)
    }

    // Whether level a is below whatever level b is below.
    fn is_transitive_at(&self, a: Level, b: Level) -> bool
        ensures { IsTrue result ↔ ((c : ℕ) → c < self.now.levels → IsTrue (table_entry self.now.rows.now b c) → IsTrue (table_entry self.now.rows.now a c)) }
    {
        (0..self.levels).all(|c| !self.below(b, c) || self.below(a, c))
    }
}
