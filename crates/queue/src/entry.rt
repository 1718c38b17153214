// Reading the table. The clauses speak of the rule, the code of the numbers, so each proof opens the rule.
#![tactic(auto, unfolding(crate::specs::Table::entry, crate::specs::Table::table, crate::specs::Table::two_each, rules::specs::Priority::nr_values, rules::specs::Queue::realtime_bucket, rules::specs::Priority::cut, rules::specs::Queue::width, rules::specs::Queue::offset, rules::specs::Queue::nr_buckets))]

ghost use Rattle.std.specs.Prelude.{◌≡◌};
ghost use Rattle.queue.specs.Table.{table, entry};

// A static, so that it stands once in memory and is not made where it is read.
static TABLE: [u64; 256] = crate::table::TABLE;

// The whole table.
pub fn table() -> [u64; 256]
    ensures { result ≡ table }
{
    TABLE
}

// Number i modulo 256 of the table.
pub fn entry(i: u64) -> u64
    ensures { result ≡ entry i }
{
    TABLE[(i % 256) as usize]
}
