//! What lines were answered.
ghost use Rattle.std.specs.Prelude.{◌≡◌, ◌≢◌, ◌<◌, ◌==◌, ◌&&◌, ◌++◌, ◌∷◌, [], true, false, length, replicate};
ghost use Rattle.std.specs.{Prelude.{slice_set, position, fold, IfOk, OnOk, IfSome}, List.{concat, zip}};
ghost use Rattle.xa_orders.specs.{Marks.with_text as with_text_of, Orders.next_place as place_of_next};

use crate::line::Line;
use crate::marks::{with, with_text};
use crate::shared_text::SharedText;
use std::alloc::Global;
use std::marker::Model;
use xa_xid::{NoMemory, SessionNo};

/// What each of a number of lines was answered: a text, which is empty if the line wasn't carried out.
#[derive(Drop)]
pub struct Answers {
    /// What each line was answered.
    texts: Vec<SharedText>,
    /// A number made of the texts of the lines that were carried out, and of their places.
    mark: u64,
}

impl Model for Answers {
    ghost use Rattle.std.specs.Prelude.{ℕ, List};

    ghost Value = { List (List ℕ) };

    ghost view = { λ answers. answers.texts.items };
}

/// The place of the session's first line whose answer is empty. None if there is none. `texts` has the answer to each
/// line, in the same order.
fn first_left(lines: &[Line<'_>], texts: &[SharedText], session: SessionNo) -> Option<usize>
    ensures place { result ≡ position (λ pair. (pair.0.session == session) && (length pair.1 == 0))
        (zip lines.now texts.now) }
    ensures line { IfSome result (λ place. place < length lines.now) }
    ensures text { IfSome result (λ place. place < length texts.now) }
{
    lines.iter().zip(texts.iter()).position(|(line, text)| line.session() == session
        && text.text().is_empty())
}

/// The place of the session's first line that wasn't carried out, and so has an empty text in `texts`. None if there is
/// none.
fn next_place(lines: &[Line<'_>], texts: &[SharedText], session: SessionNo) -> Option<usize>
    ensures place { result ≡ place_of_next session lines.now texts.now }
    ensures line { IfSome result (λ place. place < length lines.now) }
    ensures text { IfSome result (λ place. place < length texts.now) }
{
    first_left(lines, texts, session)
}

/// Tells whether two texts are the same.
pub fn is_same_text(left: &[u8], right: &[u8]) -> bool
    ensures same { result ≡ true → left.now ≡ right.now }
    ensures other { result ≡ false → left.now ≢ right.now }
{
    left == right
}

/// Whether two lists are known to have the same texts, in the same order. Never true of different lists.
fn is_same_texts(left: &[SharedText], right: &[SharedText]) -> bool
    ensures { result ≡ true → left.now ≡ right.now }
{
    if left.len() != right.len() {
        return false;
    }
    for place in 0..left.len() {
        if !left[place].is_same(&right[place]) {
            return false;
        }
    }
    true
}

/// A copy of a list, in which each text has one more owner and isn't copied itself.
fn copy_of_texts(alloc: Global, texts: &[SharedText]) -> Result<Vec<SharedText>, NoMemory>
    ensures { IfOk result (λ copy. copy.items ≡ texts.now) }
{
    let mut copy = Vec::with_capacity(alloc, texts.len())?;
    for text in texts {
        copy.push(text.try_clone()?)?;
    }
    Ok(copy)
}

/// Returns `mark` with each of the texts added, in order.
fn with_texts(mark: u64, texts: &[SharedText]) -> u64
    ensures { result ≡ fold with_text_of mark texts.now }
{
    let mut longer = mark;
    for text in texts {
        longer = with_text(longer, text.text());
    }
    longer
}

/// Appends each of the texts.
fn push_texts(out: &mut Vec<u8>, texts: &[SharedText]) -> Result<(), NoMemory>
    ensures { OnOk result (out.new.items ≡ out.old.items ++ concat texts.now) }
{
    for text in texts {
        out.extend_from_slice(text.text())?;
    }
    Ok(())
}

impl Answers {
    /// Returns the answers of `count` lines, none of which was carried out.
    ///
    /// May return `NoMemory`.
    pub fn new(alloc: Global, count: usize) -> Result<Answers, NoMemory>
        ensures { IfOk result (λ answers. answers ≡ replicate count []) }
    {
        let none = SharedText::of(alloc, Vec::new(alloc))?;
        let mut texts = Vec::new(alloc);
        for _ in 0..count {
            texts.push(none.try_clone()?)?;
        }
        Ok(Answers { texts, mark: 0 })
    }

    /// A copy of the answers, whose texts are shared.
    fn copy(&self, alloc: Global) -> Result<Answers, NoMemory>
        ensures { IfOk result (λ copy. copy ≡ self.now) }
    {
        let texts = copy_of_texts(alloc, self.texts.as_slice())?;
        Ok(Answers {
            texts,
            mark: self.mark,
        })
    }

    /// Returns a copy in which the line at `place` was answered with this text.
    ///
    /// May return `NoMemory`.
    pub fn with(&self, alloc: Global, place: usize, text: SharedText) -> Result<Answers, NoMemory>
        requires { place < length self.now }
        ensures { IfOk result (λ answers. answers ≡ slice_set self.now place text) }
    {
        let mut answers = self.copy(alloc)?;
        answers.set(place, text);
        Ok(answers)
    }

    /// Tells whether both are known to be the same. It never answers yes for different ones.
    pub fn is_same(&self, other: &Answers) -> bool
        ensures { result ≡ true → self.now ≡ other.now }
    {
        is_same_texts(self.texts.as_slice(), other.texts.as_slice())
    }

    /// Returns `mark` with all texts added. If two answers turn the same mark into different ones, they differ.
    pub fn add_to(&self, mark: u64) -> u64
        ensures { result ≡ fold with_text_of mark self.now }
    {
        with_texts(mark, self.texts.as_slice())
    }

    /// Returns a number made of the texts of the lines that were carried out, and of the places of these lines. Equal
    /// answers are found by it.
    pub fn mark(&self) -> u64 {
        self.mark
    }

    /// Returns the place of the session's first line that wasn't carried out, if there is one.
    pub fn next_place(&self, lines: &[Line<'_>], session: SessionNo) -> Option<usize>
        ensures place { result ≡ place_of_next session lines.now self.now }
        ensures line { IfSome result (λ place. place < length lines.now) }
        ensures answer { IfSome result (λ place. place < length self.now) }
    {
        next_place(lines, self.texts.as_slice(), session)
    }

    /// Notes that the line at `place` was answered with this text.
    fn set(&mut self, place: usize, text: SharedText)
        requires { place < length self.old }
        ensures { self.new ≡ slice_set self.old place text }
    {
        // By exclusive or, so that the order in which lines are answered doesn't matter. Each is answered once, so no
        // older text has to be taken out of the mark.
        self.mark ^= with(place as u64, text.mark());
        self.texts[place] = text;
    }

    /// Appends all texts to `out`, in the order of the lines.
    ///
    /// May return `NoMemory`.
    pub fn push_to(&self, out: &mut Vec<u8>) -> Result<(), NoMemory>
        ensures { OnOk result (out.new.items ≡ out.old.items ++ concat self.now) }
    {
        push_texts(out, self.texts.as_slice())
    }
}
