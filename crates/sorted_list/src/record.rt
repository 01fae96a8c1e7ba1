// What a type must have for its values to be kept in a sorted list.
ghost use Rattle.std.specs.Prelude.{◌≡◌};
ghost use Rattle.std.specs.declared.cmp.Ordering.{Ordering};
ghost use Rattle.sorted_list.specs.Orders.{TotalOrder, Same};

use std::cmp::Ordering;

// A record with an order and a blank. Records that are equal in the order may differ: they then have the same key.
pub trait Record: Copy {
    // How the first stands to the second: `Less` where it comes before it.
    ghost rank: { Self → Self → Ordering };

    // The blank record, which stands at every place that is not in use.
    ghost vacant: { Self };

    fn compare(&self, other: &Self) -> Ordering
        ensures { result ≡ rank self.now other.now };

    fn blank() -> Self
        ensures { result ≡ vacant };

    ghost order: { TotalOrder rank };
}

// A record that is its own key: equal in the order means the same record.
pub trait WholeKey: Record {
    ghost same: { Same Self.Record.rank };
}
