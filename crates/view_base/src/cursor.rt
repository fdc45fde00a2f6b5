ghost use Rattle.std.specs.Prelude.{◌≡◌, ℕ, ◌+◌, ◌<◌, ◌≤◌, [], ◌∷◌, Bool, List, length, map, drop, string_bytes, Option, Some, None, OnOk, IfOk, IfErr, IfSome, IfNone, is_some, true, false};
ghost use Rattle.std.specs.Str.{bytes_eq};
ghost use Rattle.view_base.specs.Text.{words};
ghost use Rattle.view_base.specs.Fitting.{word_at, misfit};
ghost use Rattle.view_base.specs.Cursor.{all_words, words_from, last_position, IsRead};

use crate::text::next_word;
use std::marker::PhantomData;

/// What the words of a line must be, place by place.
pub trait Form {
    /// Whether a word fits a place, from 0. No word fits a place after the last.
    ghost fits: { ℕ → List ℕ → Bool };

    /// Whether so many words are all that are needed.
    ghost whole: { ℕ → Bool };
}

/// A kind of words that stand for values.
pub trait WordKind {
    /// What a word of this kind stands for.
    type Value;

    /// The value of a word, or none where it isn't of this kind.
    ghost value: { List ℕ → Option Self.Value };

    /// What every value of a word keeps.
    ghost Keeps: { Self.Value → Type 0 };

    /// The value of a word, or `None` where it isn't of this kind.
    fn read(word: &[u8]) -> Option<Self::Value>
        ensures value { result ≡ value word.now }
        ensures keeps { IfSome result Keeps };
}

/// Where words come from: those of a line between its blanks, or those of a command line, each of
/// which may be empty or hold blanks.
#[derive(Clone, Copy)]
pub enum WordsOf<'a> {
    Line(&'a [u8]),
    Separate(&'a [String]),
}

/// A word, and the position after it.
#[derive(Clone, Copy)]
struct Word<'a> {
    text: &'a [u8],
    end: usize,
}

/// The word at a position of a source, or `None` where none is left.
fn word_from<'a>(source: WordsOf<'a>, at: usize) -> Option<Word<'a>>
    requires { at ≤ last_position source }
    ensures word { IfSome result
        (λ w. words_from source.entry at ≡ w.text.now ∷ words_from source.entry w.end) }
    ensures end { IfSome result (λ w. w.end ≤ last_position source.entry) }
    ensures none { IfNone result (words_from source.entry at ≡ []) }
{
    match source {
        WordsOf::Line(line) => {
            let (start, end) = next_word(line, at)?;
            Some(Word {
                text: &line[start..end],
                end,
            })
        }
        WordsOf::Separate(list) => {
            if at == list.len() {
                return None;
            }
            Some(Word {
                text: list[at].as_bytes(),
                end: at + 1,
            })
        }
    }
}

/// Words that are read one after another against a form: each one read fits its place.
#[derive(Drop)]
pub struct Cursor<'a, F: Form> {
    /// Where the words come from.
    pub source: WordsOf<'a>,
    /// The position of the next word there.
    pub at: usize,
    /// The place of the next word, from 0.
    pub place: u32,
    /// What the words must be.
    pub form: PhantomData<F>,
    ghost position: { at ≤ last_position source },
    ghost read: { IsRead F.fits (all_words source) (words_from source at) place },
}

impl<'a, F: Form> Cursor<'a, F> {
    /// Before the first word.
    pub fn new(source: WordsOf<'a>) -> Self
        ensures source { result.source ≡ source.entry }
        ensures place { result.place ≡ 0 }
    {
        Cursor {
            source,
            at: 0,
            place: 0,
            form: PhantomData,
        }
    }

    /// Takes the next word where it is of a kind, or names its place, where a word is missing too.
    pub fn read<R: WordKind>(&mut self) -> Result<R::Value, u32>
        requires few { self.old.place < 100 }
        requires early { F.whole self.old.place ≡ false }
        requires kind { (word : List ℕ) → F.fits self.old.place word ≡ is_some (R.value word) }
        ensures source { self.new.source ≡ self.old.source }
        ensures place { OnOk result (self.new.place ≡ self.old.place + 1) }
        ensures value { IfOk result
            (λ v. R.value (word_at (all_words self.old.source) self.old.place) ≡ Some v) }
        ensures keeps { IfOk result R.Keeps }
        ensures misfit { IfErr result
            (λ at. misfit F.fits F.whole (all_words self.old.source) ≡ Some at) }
    {
        let Some(word) = word_from(self.source, self.at) else {
            return Err(self.place);
        };
        match R::read(word.text) {
            Some(value) => {
                self.at = word.end;
                self.place += 1;
                Ok(value)
            }
            None => Err(self.place),
        }
    }

    /// Takes the next word where it is this text, or names its place, where a word is missing too.
    pub fn keyword(&mut self, text: &[u8]) -> Result<(), u32>
        requires few { self.old.place < 100 }
        requires early { F.whole self.old.place ≡ false }
        requires kind { (word : List ℕ) → F.fits self.old.place word ≡ bytes_eq word text.now }
        ensures source { self.new.source ≡ self.old.source }
        ensures place { OnOk result (self.new.place ≡ self.old.place + 1) }
        ensures misfit { IfErr result
            (λ at. misfit F.fits F.whole (all_words self.old.source) ≡ Some at) }
    {
        let Some(word) = word_from(self.source, self.at) else {
            return Err(self.place);
        };
        if word.text != text {
            return Err(self.place);
        }
        self.at = word.end;
        self.place += 1;
        Ok(())
    }

    /// Whether the next word is this text.
    pub fn is_next(&self, text: &[u8]) -> bool
        requires { 0 < length text.now }
        ensures { result ≡ bytes_eq (word_at (all_words self.now.source) self.now.place) text.now }
    {
        match word_from(self.source, self.at) {
            Some(word) => word.text == text,
            None => false,
        }
    }

    /// The end of the words, which are all that are needed, or the place of a further one.
    pub fn end(&self) -> Result<(), u32>
        requires whole { F.whole self.now.place ≡ true }
        requires last { (word : List ℕ) → F.fits self.now.place word ≡ false }
        ensures fit { OnOk result (misfit F.fits F.whole (all_words self.now.source) ≡ None) }
        ensures misfit { IfErr result
            (λ at. misfit F.fits F.whole (all_words self.now.source) ≡ Some at) }
    {
        match word_from(self.source, self.at) {
            Some(_) => Err(self.place),
            None => Ok(()),
        }
    }
}
