ghost use Rattle.std.specs.Prelude.{◌≡◌, ◌+◌, ◌==◌, ◌<◌, List, ℕ, false, is_some, Some, None, OnOk, IfOk, IfErr};
ghost use Rattle.view_base.specs.Text.{words};
ghost use Rattle.view_base.specs.Fitting.{word_at, misfit};
ghost use Rattle.view_base.specs.Cursor.{all_words};
ghost use Rattle.class_bits.specs.ClassSet.{class_list};
ghost use Rattle.view_text.specs.ViewWords.{fits, fits_filter, hides, kind, colouring, camera_numbers, filter_at, filter_of, view_of, view_through};

use crate::fault::TextFault;
use crate::kinds::{CameraWord, ColouringWord, WithheldWord};
use crate::view_spec::ViewSpec;
use class_bits::{ClassWord, Filter};
use int_camera::{Camera, CameraNumbers};
use view_base::{Colouring, Cursor, Form, NumberWord, WordsOf};

/// The words of a view.
struct ViewForm;

impl Form for ViewForm {
    ghost fits = { fits };

    ghost whole = { λ count. count == 22 };
}

/// The words of a filter.
struct FilterForm;

impl Form for FilterForm {
    ghost fits = { fits_filter };

    ghost whole = { λ count. count == 2 };
}

/// What the words of a view say.
#[derive(Clone, Copy)]
struct Said {
    numbers: CameraNumbers,
    colouring: Colouring,
    filter: Filter,
}

/// The camera's eighteen numbers, which are the next words.
fn read_numbers(rest: &mut Cursor<ViewForm>) -> Result<[i128; 18], u32>
    requires { rest.old.place ≡ 1 }
    ensures source { rest.new.source ≡ rest.old.source }
    ensures place { OnOk result (rest.new.place ≡ 19) }
    ensures numbers { IfOk result (λ n. n ≡ camera_numbers (all_words rest.old.source)) }
    ensures misfit { IfErr result
        (λ at. misfit fits (λ count. count == 22) (all_words rest.old.source) ≡ Some at) }
{
    let mut numbers = [0; 18];
    for i in 0..18 {
        numbers[i] = rest.read::<NumberWord>()?;
    }
    Ok(numbers)
}

/// The filter that the next two words describe.
fn read_filter_words<F: Form>(rest: &mut Cursor<F>) -> Result<Filter, u32>
    requires few { rest.old.place < 99 }
    requires early { F.whole rest.old.place ≡ false }
    requires late { F.whole (rest.old.place + 1) ≡ false }
    requires classes { (word : List ℕ) → F.fits rest.old.place word ≡ is_some (class_list word) }
    requires withheld { (word : List ℕ) → F.fits (rest.old.place + 1) word ≡ is_some (hides word) }
    ensures source { rest.new.source ≡ rest.old.source }
    ensures place { OnOk result (rest.new.place ≡ rest.old.place + 2) }
    ensures filter { IfOk result (λ f. f ≡ filter_at (all_words rest.old.source) rest.old.place) }
    ensures misfit { IfErr result
        (λ at. misfit F.fits F.whole (all_words rest.old.source) ≡ Some at) }
{
    let classes = rest.read::<ClassWord>()?;
    let hide_withheld = rest.read::<WithheldWord>()?;
    Ok(Filter {
        classes,
        hide_withheld,
    })
}

/// What the words of a view say, or the first place where they don't fit.
fn read_said(source: WordsOf) -> Result<Said, u32>
    ensures fit { OnOk result (misfit fits (λ count. count == 22) (all_words source.entry) ≡ None) }
    ensures kind { IfOk result (λ s. kind (word_at (all_words source.entry) 0) ≡ Some s.numbers.kind) }
    ensures numbers { IfOk result (λ s. s.numbers.n ≡ camera_numbers (all_words source.entry)) }
    ensures colouring { IfOk result (λ s. colouring (word_at (all_words source.entry) 19) ≡ Some s.colouring) }
    ensures filter { IfOk result (λ s. s.filter ≡ filter_at (all_words source.entry) 20) }
    ensures misfit { IfErr result
        (λ at. misfit fits (λ count. count == 22) (all_words source.entry) ≡ Some at) }
{
    let mut rest = Cursor::<ViewForm>::new(source);
    let kind = rest.read::<CameraWord>()?;
    let n = read_numbers(&mut rest)?;
    let colouring = rest.read::<ColouringWord>()?;
    let filter = read_filter_words(&mut rest)?;
    rest.end()?;
    Ok(Said {
        numbers: CameraNumbers { kind, n },
        colouring,
        filter,
    })
}

/// The view of what words that fit say, or the first camera number that is out of its range.
fn view_through(said: &Said) -> Result<ViewSpec, TextFault>
    ensures { result ≡ view_through said.now.numbers.kind said.now.numbers.n said.now.colouring said.now.filter }
{
    match Camera::new(&said.numbers) {
        Ok(camera) => Ok(ViewSpec {
            camera,
            colouring: said.colouring,
            filter: said.filter,
        }),
        Err(limit) => Err(TextFault::Limit(limit)),
    }
}

/// The view that 22 words are: `ortho` or `persp`, the camera's eighteen numbers in the order of
/// `CameraNumbers`, `class`, `rgb16`, `rgb8` or `intensity`, a class list, and `show` or `hide` for
/// withheld records. `Line` names the first word that doesn't fit; `Limit` comes where all words
/// fit and a camera number is out of its range. Takes no memory.
pub fn read_view_from(source: WordsOf) -> Result<ViewSpec, TextFault>
    ensures { result ≡ view_of (all_words source.entry) }
{
    match read_said(source) {
        Ok(said) => view_through(&said),
        Err(at) => Err(TextFault::Line { at }),
    }
}

/// The view that a line is, or why it is none, as `read_view_from` says.
pub fn read_view(line: &[u8]) -> Result<ViewSpec, TextFault>
    ensures { result ≡ view_of (words line.now) }
{
    read_view_from(WordsOf::Line(line))
}

/// The filter of the words of a line, or the first place where they don't fit.
fn read_pair(line: &[u8]) -> Result<Filter, u32>
    ensures fit { OnOk result (misfit fits_filter (λ count. count == 2) (words line.now) ≡ None) }
    ensures filter { IfOk result (λ f. f ≡ filter_at (words line.now) 0) }
    ensures misfit { IfErr result (λ at. misfit fits_filter (λ count. count == 2) (words line.now) ≡ Some at) }
{
    let mut rest = Cursor::<FilterForm>::new(WordsOf::Line(line));
    let filter = read_filter_words(&mut rest)?;
    rest.end()?;
    Ok(filter)
}

/// The filter that a line of two words is: a class list, and `show` or `hide` for withheld records.
/// `Line` names the first word that doesn't fit, or the number of words where more are needed.
/// Takes no memory.
pub fn read_filter(line: &[u8]) -> Result<Filter, TextFault>
    ensures { result ≡ filter_of (words line.now) }
{
    match read_pair(line) {
        Ok(filter) => Ok(filter),
        Err(at) => Err(TextFault::Line { at }),
    }
}
