//! What a line of a script says.

ghost use Rattle.std.specs.Prelude.{◌≡◌, ◌<◌, [], ◌∷◌, length, IfOk, OnOk, IfErr};
ghost use Rattle.oemm_lines.specs.Numbers.{unsigned_of};
ghost use Rattle.oemm_lines.specs.Stream.{texts_of, IsPlaced};
ghost use Rattle.edit_script.specs.Ranges.{IsWithin};
ghost use Rattle.edit_script.specs.Line.{point_of, name_of, most_of, triangles_of, task_within, task_of, move_of, collapse_of, flip_of, simplify_of, task_says, move_says, collapse_says, flip_says, simplify_says, line_says};

use crate::fault::ScriptWhy;
use crate::numbers::{is_box, most, name, point, triangles};
use mesh_data::Edit;
use oemm_limits::LAST_LANE;
use oemm_lines::{Line, WordsLeft, unsigned};
use oemm_octree::Point;

/// What a line says.
#[derive(Clone, Copy)]
pub enum LineMeaning {
    /// A task begins, with its lane and the corners of its box.
    TaskLine { lane: u8, low: Point, high: Point },
    /// An edit of the last task.
    EditLine { edit: Edit },
}

/// The words of the coordinates of a point, unread.
#[derive(Clone, Copy)]
struct PointWords<'a> {
    x: &'a [u8],
    y: &'a [u8],
    z: &'a [u8],
}

/// The next word, or the fault of a line that ends too soon.
fn word<'a>(words: &mut WordsLeft<'a>) -> Result<&'a [u8], ScriptWhy>
    ensures ok { IfOk result (λ w. words.old ≡ w.now ∷ words.new) }
    ensures err { IfErr result (λ why. (why ≡ ScriptWhy.Words) × (words.old ≡ [])) }
{
    words.next().ok_or(ScriptWhy::Words)
}

/// The next three words.
fn point_words<'a>(words: &mut WordsLeft<'a>) -> Result<PointWords<'a>, ScriptWhy>
    ensures ok { IfOk result (λ w. words.old ≡ w.x.now ∷ w.y.now ∷ w.z.now ∷ words.new) }
    ensures err { IfErr result (λ why. (why ≡ ScriptWhy.Words) × (length words.old < 3)) }
{
    let x = word(words)?;
    let y = word(words)?;
    let z = word(words)?;
    Ok(PointWords { x, y, z })
}

/// Wants no further word.
fn no_word(words: &mut WordsLeft<'_>) -> Result<(), ScriptWhy>
    ensures ok { OnOk result (words.old ≡ []) }
    ensures err { IfErr result (λ why. (why ≡ ScriptWhy.Words) × (0 < length words.old)) }
{
    match words.next() {
        None => Ok(()),
        Some(_) => Err(ScriptWhy::Words),
    }
}

/// The task of a lane and two corners.
fn task_within(lane: u128, low: Point, high: Point) -> Result<LineMeaning, ScriptWhy>
    ensures value { result ≡ task_within lane low high }
    ensures within { IfOk result IsWithin }
{
    if lane > u128::from(LAST_LANE) {
        return Err(ScriptWhy::Lane);
    }
    if !is_box(&low, &high) {
        return Err(ScriptWhy::Box);
    }
    Ok(LineMeaning::TaskLine {
        lane: lane as u8,
        low,
        high,
    })
}

/// The task of a lane's word and two corners' words.
fn task_of(lane: &[u8], low: &PointWords, high: &PointWords) -> Result<LineMeaning, ScriptWhy>
    ensures value { result ≡ task_of (unsigned_of lane.now) (point_of low.now.x.now low.now.y.now low.now.z.now)
        (point_of high.now.x.now high.now.y.now high.now.z.now) }
    ensures within { IfOk result IsWithin }
{
    let lane = unsigned(lane).ok_or(ScriptWhy::Number)?;
    let low = point(low.x, low.y, low.z).ok_or(ScriptWhy::Number)?;
    let high = point(high.x, high.y, high.z).ok_or(ScriptWhy::Number)?;
    task_within(lane, low, high)
}

/// The move of a name's word and a point's words.
fn move_of(v: &[u8], to: &PointWords) -> Result<LineMeaning, ScriptWhy>
    ensures value { result ≡ move_of (name_of v.now) (point_of to.now.x.now to.now.y.now to.now.z.now) }
    ensures within { IfOk result IsWithin }
{
    let v = name(v).ok_or(ScriptWhy::Number)?;
    let to = point(to.x, to.y, to.z).ok_or(ScriptWhy::Number)?;
    Ok(LineMeaning::EditLine {
        edit: Edit::Move { v, to },
    })
}

/// The collapse of a name's word into another, up to a bound's word.
fn collapse_of(u: &[u8], v: &[u8], max: &[u8]) -> Result<LineMeaning, ScriptWhy>
    ensures value { result ≡ collapse_of (name_of u.now) (name_of v.now) (most_of max.now) }
    ensures within { IfOk result IsWithin }
{
    let u = name(u).ok_or(ScriptWhy::Number)?;
    let v = name(v).ok_or(ScriptWhy::Number)?;
    let max = most(max).ok_or(ScriptWhy::Number)?;
    Ok(LineMeaning::EditLine {
        edit: Edit::Collapse { u, v, max },
    })
}

/// The flip of the edge of two names' words.
fn flip_of(a: &[u8], b: &[u8]) -> Result<LineMeaning, ScriptWhy>
    ensures value { result ≡ flip_of (name_of a.now) (name_of b.now) }
    ensures within { IfOk result IsWithin }
{
    let a = name(a).ok_or(ScriptWhy::Number)?;
    let b = name(b).ok_or(ScriptWhy::Number)?;
    Ok(LineMeaning::EditLine {
        edit: Edit::Flip { a, b },
    })
}

/// The simplification up to a bound's word, down to a word's number of triangles.
fn simplify_of(max: &[u8], target: &[u8]) -> Result<LineMeaning, ScriptWhy>
    ensures value { result ≡ simplify_of (most_of max.now) (triangles_of target.now) }
    ensures within { IfOk result IsWithin }
{
    let max = most(max).ok_or(ScriptWhy::Number)?;
    let target = triangles(target).ok_or(ScriptWhy::Number)?;
    Ok(LineMeaning::EditLine {
        edit: Edit::Simplify { max, target },
    })
}

/// What the words behind `task` say.
#[tactic(auto, using(crate::proofs::Counts::task_says_count), unfolding(crate::specs::Line::task_says))]
fn task_meaning(words: &mut WordsLeft<'_>) -> Result<LineMeaning, ScriptWhy>
    ensures value { result ≡ task_says words.old }
    ensures within { IfOk result IsWithin }
{
    let lane = word(words)?;
    let low = point_words(words)?;
    let high = point_words(words)?;
    no_word(words)?;
    task_of(lane, &low, &high)
}

/// What the words behind `move` say.
#[tactic(auto, using(crate::proofs::Counts::move_says_count), unfolding(crate::specs::Line::move_says))]
fn move_meaning(words: &mut WordsLeft<'_>) -> Result<LineMeaning, ScriptWhy>
    ensures value { result ≡ move_says words.old }
    ensures within { IfOk result IsWithin }
{
    let v = word(words)?;
    let to = point_words(words)?;
    no_word(words)?;
    move_of(v, &to)
}

/// What the words behind `collapse` say.
#[tactic(auto, using(crate::proofs::Counts::collapse_says_count), unfolding(crate::specs::Line::collapse_says))]
fn collapse_meaning(words: &mut WordsLeft<'_>) -> Result<LineMeaning, ScriptWhy>
    ensures value { result ≡ collapse_says words.old }
    ensures within { IfOk result IsWithin }
{
    let u = word(words)?;
    let v = word(words)?;
    let max = word(words)?;
    no_word(words)?;
    collapse_of(u, v, max)
}

/// What the words behind `flip` say.
#[tactic(auto, using(crate::proofs::Counts::flip_says_count), unfolding(crate::specs::Line::flip_says))]
fn flip_meaning(words: &mut WordsLeft<'_>) -> Result<LineMeaning, ScriptWhy>
    ensures value { result ≡ flip_says words.old }
    ensures within { IfOk result IsWithin }
{
    let a = word(words)?;
    let b = word(words)?;
    no_word(words)?;
    flip_of(a, b)
}

/// What the words behind `simplify` say.
#[tactic(auto, using(crate::proofs::Counts::simplify_says_count), unfolding(crate::specs::Line::simplify_says))]
fn simplify_meaning(words: &mut WordsLeft<'_>) -> Result<LineMeaning, ScriptWhy>
    ensures value { result ≡ simplify_says words.old }
    ensures within { IfOk result IsWithin }
{
    let max = word(words)?;
    let target = word(words)?;
    no_word(words)?;
    simplify_of(max, target)
}

/// What a line says.
#[tactic(auto, unfolding(crate::specs::Line::line_says))]
pub fn line_meaning(line: &Line) -> Result<LineMeaning, ScriptWhy>
    requires { IsPlaced line.now }
    ensures value { result ≡ line_says (texts_of line.now) }
    ensures within { IfOk result IsWithin }
{
    let mut words = line.words_left();
    let Some(first) = words.next() else {
        return Err(ScriptWhy::Word);
    };
    if first == b"task".as_slice() {
        task_meaning(&mut words)
    } else if first == b"move".as_slice() {
        move_meaning(&mut words)
    } else if first == b"collapse".as_slice() {
        collapse_meaning(&mut words)
    } else if first == b"flip".as_slice() {
        flip_meaning(&mut words)
    } else if first == b"simplify".as_slice() {
        simplify_meaning(&mut words)
    } else {
        Err(ScriptWhy::Word)
    }
}
