// The refusals, with the numbers and words of documents 01 and 02; the word of 10 is ours.
ghost use Rattle.std.specs.Prelude.{◌≡◌};
ghost use Rattle.terms.specs.Refusals.{number_of};

#[derive(Clone, Copy, PartialEq, Eq)]
pub enum Refusal {
    // 1: a file under its least length
    Short,
    // 2: a file of another kind
    Foreign,
    // 3: a number of periods or buckets, or a trace's length, outside its range
    Periods,
    // 4: an offset or a length that the counts do not give
    Misplaced,
    // 5: a tariff, bucket, cost or run figure that breaks its rule
    Figure,
    // 6: a lent list or lent bytes too short for the answer
    List,
    // 7: no depth, no bucket or no cutting carries the trace inside the caps
    NoPlan,
    // 8: a meter record that breaks a rule
    Meter,
    // 9: a meter that has taken its last period
    Full,
    // 10: an order and a plan of different numbers of periods
    Unequal,
}

// The number that a refusal is printed by.
impl From<Refusal> for u32 {
    ghost from_gives = { λ why n. n ≡ number_of why };

    fn from(why: Refusal) -> u32 {
        match why {
            Refusal::Short => 1,
            Refusal::Foreign => 2,
            Refusal::Periods => 3,
            Refusal::Misplaced => 4,
            Refusal::Figure => 5,
            Refusal::List => 6,
            Refusal::NoPlan => 7,
            Refusal::Meter => 8,
            Refusal::Full => 9,
            Refusal::Unequal => 10,
        }
    }
}

// The same as a call.
pub fn refusal_number(x: Refusal) -> u32
    ensures { result ≡ number_of x }
{
    u32::from(x)
}
