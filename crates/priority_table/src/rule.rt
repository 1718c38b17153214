// The two numbers of a value, by the rules' formulas.
ghost use Rattle.std.specs.Prelude.{◌≡◌};
ghost use Rattle.rules.specs.Queue.{realtime_bucket, offset};

#[tactic(auto, unfolding(rules::specs::Queue::realtime_bucket, rules::specs::Priority::cut, rules::specs::Priority::nr_values, rules::specs::Queue::width))]
pub fn realtime_bucket(value: u64) -> u64
    ensures { result ≡ realtime_bucket value }
{
    value.min(127) / 16
}

#[tactic(auto, using(rules::proofs::Laws::Effect::offset_past), unfolding(rules::specs::Queue::offset, rules::specs::Queue::nr_buckets, rules::specs::Priority::nr_values, rules::specs::Queue::width))]
pub fn offset(value: u64) -> u64
    ensures { result ≡ offset value }
{
    match value {
        0 => 7,
        1..=127 => (128 - value) / 16,
        _ => 0,
    }
}
