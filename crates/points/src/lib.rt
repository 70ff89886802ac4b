// Points to come back to (document 02, U6): setting one, and returning to it.
#![tactic(auto)]

mod state;

ghost use Rattle.std.specs.Prelude.{true, false, ◌≡◌, ◌+◌, ◌≤◌, ◌<◌, length, get_or, MatchOption};
ghost use Rattle.sizes.specs.Sizes.{cells, max_input, max_points};
ghost use Rattle.grammar.specs.Valid.{valid_grammar};
ghost use Rattle.results.specs.Recognize.{state_check};
ghost use Rattle.results.specs.Points.{set_point_of, return_to_of};
ghost use Rattle.recognizer.specs.Recognizer.{state_in, recognition_of};

use answers::Refusal;
use grammar::Grammar;
use points_clear::clear_after;
use recognizer::state::invalid;
use recognizer::{Advanced, POINTS, Recognizer, refused, says};
use state::{back, with_point};

// Sets the point, once the checks are passed.
fn setting(h: Recognizer, g: Grammar, name: usize, chart: &[u32]) -> Advanced
    requires { (valid_grammar g ≡ true) × ((state_check (state_in h)).fails ≡ false) × (cells ≤ length chart.now) × (name < max_points)
        × (h.count ≤ max_input) }
    ensures { recognition_of result chart.now ≡ set_point_of g (state_in h) name chart.now }
{
    Advanced {
        accepted: says(g.start, h.count, chart),
        recognizer: with_point(h, name),
    }
}

// Sets the point of this name at the count, wherever it was. No cell is written. Refusals 8, 14, 10 and 19.
pub fn set_point(h: Recognizer, g: Grammar, name: usize, chart: &[u32]) -> Advanced
    ensures { recognition_of result chart.now ≡ set_point_of g (state_in h) name chart.now }
{
    let room = chart.len();
    if !grammar::valid(g) {
        return refused(h, Refusal::InvalidGrammar);
    }
    if invalid(h) {
        return refused(h, Refusal::InvalidRecognizer);
    }
    if room < sizes::CELLS {
        return refused(h, Refusal::ChartTooShort);
    }
    if name >= POINTS {
        return refused(h, Refusal::NoPoint);
    }
    setting(h, g, name, chart)
}

// The count at which the point of this name is set, if it is: None too where there is no such name.
fn set_at(h: Recognizer, name: usize) -> Option<usize>
    ensures { MatchOption result (get_or h.points name 0 ≡ 0) (λ n. get_or h.points name 0 ≡ n + 1) }
{
    usize::from(*h.points.get(name)?).checked_sub(1)
}

// Returns to the count n, where a point is, once the checks are passed.
fn returning(h: Recognizer, g: Grammar, name: usize, n: usize, chart: &mut [u32]) -> Advanced
    requires { (valid_grammar g ≡ true) × ((state_check (state_in h)).fails ≡ false) × (cells ≤ length chart.old)
        × (get_or h.points name 0 ≡ n + 1) × (n ≤ max_input) }
    ensures { recognition_of result chart.new ≡ return_to_of g (state_in h) name chart.old }
{
    clear_after(n, chart);
    Advanced {
        accepted: says(g.start, n, chart),
        recognizer: back(h, n),
    }
}

// Returns to the point of this name, and clears the columns after it. Refusals 8, 14, 10 and 19.
pub fn return_to(h: Recognizer, g: Grammar, name: usize, chart: &mut [u32]) -> Advanced
    ensures { recognition_of result chart.new ≡ return_to_of g (state_in h) name chart.old }
{
    let room = chart.len();
    if !grammar::valid(g) {
        return refused(h, Refusal::InvalidGrammar);
    }
    if invalid(h) {
        return refused(h, Refusal::InvalidRecognizer);
    }
    if room < sizes::CELLS {
        return refused(h, Refusal::ChartTooShort);
    }
    let Some(n) = set_at(h, name) else {
        return refused(h, Refusal::NoPoint);
    };
    returning(h, g, name, n, chart)
}
