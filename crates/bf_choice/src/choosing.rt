//! Which of the candidates to test next.
ghost use Rattle.std.specs.Prelude.{◌≡◌, ◌≤◌, length};
ghost use Rattle.std.specs.List.{All};
ghost use Rattle.std.specs.Option.{option_map};
ghost use Rattle.bf_search.specs.Choice.{best, count_in, value_of};
ghost use Rattle.bf_choice.specs.Leader.{better_of};

use bf_reach::Row;

/// A place that may be asked, and how many candidates its test rules out at least.
#[derive(Clone, Copy)]
struct Choice {
    place: u32,
    value: u32,
}

/// How many of `count` candidates are ruled out at least by a test of one that reaches `weight` of
/// them: those where it is good, and the others where it is bad.
pub(crate) fn value_of_weight(count: u32, weight: u32) -> u32
    requires { weight ≤ count }
    ensures { result ≡ value_of count weight }
{
    weight.min(count - weight)
}

/// The earlier choice, unless the later one has a greater value.
fn better(leader: Option<Choice>, later: Choice) -> Choice
    ensures { result ≡ better_of leader later }
{
    match leader {
        Some(earlier) if later.value <= earlier.value => earlier,
        _ => later,
    }
}

fn place_of(leader: Option<Choice>) -> Option<u32>
    ensures { result ≡ option_map (λ choice. choice.place) leader }
{
    leader.map(|choice| choice.place)
}

/// The candidate whose test halves the candidates best, the earliest among equals.
///
/// The candidates are the true places of `mask`, and `weights` has for each of them how many of them
/// it reaches. The place `bad` and those in `skips` are not asked, and there is no answer exactly
/// where no other candidate is left. The value of a candidate is that of git-bisect-lk2009; all
/// values are compared, so the search does not stop early at one that is close to half.
pub fn choose(mask: &Row, weights: &[u32], bad: u32, skips: &Row) -> Option<u32>
    requires weight_each { length weights.now ≡ length mask.now }
    requires skip_each { length skips.now ≡ length mask.now }
    requires within { All (λ weight. weight ≤ count_in mask.now) weights.now }
    ensures { result ≡ best mask.now weights.now bad skips.now }
{
    let count = mask.count();
    let mut leader: Option<Choice> = None;
    let mut from = 0;
    while let Some(place) = mask.next_from(from) {
        if place != bad && !skips.get(place) {
            let value = value_of_weight(count, weights[place as usize]);
            leader = Some(better(leader, Choice { place, value }));
        }
        from = place + 1;
    }
    place_of(leader)
}
