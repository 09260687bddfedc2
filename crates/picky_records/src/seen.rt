// The lines that are read so far, with the places at which a question is likely to be answered.
ghost use Rattle.std.specs.Prelude.{◌≡◌, ◌<◌, ◌^◌, ◌++◌, ◌∷◌, [], IfOk, length};
ghost use Rattle.picky_records.specs.Lines.{AreSound, conflicts, some_conflicts as some_conflicts_of};
ghost use Rattle.picky_records.specs.Questions.{Keeps, Knows, Learns};

use crate::Line;
use crate::ask::some_conflicts;
use crate::question::{agree_key, question_of};
use picky_contract::Bytes;
use std::alloc::{AllocError, Global};
use std::collections::BTreeMap;
use std::marker::Model;

// Lines, seen as their list. The map has what finds each of them, and its place; that the place is right is looked at where
// it is used.
#[derive(Drop)]
pub(crate) struct Seen {
    lines: Vec<Line>,
    places: BTreeMap<Bytes, usize>,
}

impl Model for Seen {
    ghost use Rattle.std.specs.Prelude.{List};
    ghost use Rattle.picky_records.specs.declared.line.Line.{Line};

    ghost Value = { List Line };

    ghost use Rattle.picky_records.specs.Questions.{KnowsLines};

    ghost view = { λ s. s.lines.items };

    ghost invariant = { λ s. KnowsLines s.places s.lines.items };
}

// Whether the line conflicts with one of these, of which the one at the place is likely to tell.
fn conflicts_at(lines: &[Line], place: usize, line: &Line) -> bool
    requires { AreSound lines.now }
    ensures { result ≡ some_conflicts_of lines.now line.now }
{
    if let Some(earlier) = lines.get(place)
        && line.is_answered_by(earlier)
    {
        return line.conflicts_with(earlier);
    }
    some_conflicts(lines, line)
}

// The map with this place under the key.
fn put(
    mut places: BTreeMap<Bytes, usize>,
    key: Bytes,
    place: usize,
) -> Result<BTreeMap<Bytes, usize>, AllocError>
    ensures keeps { IfOk result (λ m. Keeps places m) }
    ensures has { IfOk result (λ m. Knows m key) }
{
    places.insert(key, place)?;
    Ok(places)
}

// The map with all that finds the line at this place.
fn learned(
    alloc: Global,
    places: BTreeMap<Bytes, usize>,
    place: usize,
    line: &Line,
) -> Result<BTreeMap<Bytes, usize>, AllocError>
    ensures { IfOk result (λ m. Learns places m line.now) }
{
    let question = question_of(alloc, line)?;
    let Some(question) = question else {
        return Ok(places);
    };
    let places = put(places, question, place)?;
    let Line::Agree { first, second, .. } = line else {
        return Ok(places);
    };
    let swapped = agree_key(alloc, second, first)?;
    put(places, swapped, place)
}

// These lines and one more.
fn pushed(mut lines: Vec<Line>, line: Line) -> Result<Vec<Line>, AllocError>
    ensures { IfOk result (λ v. v.items ≡ lines.items ++ line ∷ []) }
{
    lines.push(line)?;
    Ok(lines)
}

impl Seen {
    // No lines.
    pub(crate) fn new(alloc: Global) -> Seen
        ensures { result ≡ [] }
    {
        Seen {
            lines: Vec::new(alloc),
            places: BTreeMap::new(alloc),
        }
    }

    // How many lines were read.
    pub(crate) fn len(&self) -> usize
        ensures is { result ≡ length self.now }
        ensures small { result < 2 ^ 63 }
    {
        self.lines.len()
    }

    // The lines.
    pub(crate) fn into_lines(self) -> Vec<Line>
        ensures { result.items ≡ self }
    {
        self.lines
    }

    // Whether the line conflicts with an earlier one.
    fn some_conflicts(&self, alloc: Global, line: &Line) -> Result<bool, AllocError>
        requires { AreSound self.now }
        ensures { IfOk result (λ b. b ≡ some_conflicts_of self.now line.now) }
    {
        let question = question_of(alloc, line)?;
        let Some(question) = question else {
            return Ok(false);
        };
        match self.places.get(&question) {
            Some(place) => Ok(conflicts_at(&self.lines, *place, line)),
            None => Ok(false),
        }
    }

    // Whether the line conflicts with itself or with an earlier one.
    pub(crate) fn conflicts(&self, alloc: Global, line: &Line) -> Result<bool, AllocError>
        requires { AreSound self.now }
        ensures { IfOk result (λ b. b ≡ conflicts self.now line.now) }
    {
        if line.own_conflict() {
            return Ok(true);
        }
        self.some_conflicts(alloc, line)
    }

    // These lines and one more.
    pub(crate) fn with(self, alloc: Global, line: Line) -> Result<Seen, AllocError>
        ensures { IfOk result (λ s. s ≡ self ++ line ∷ []) }
    {
        let Seen { lines, places } = self;
        let places = learned(alloc, places, lines.len(), &line);
        let lines = pushed(lines, line)?;
        let places = places?;
        Ok(Seen { lines, places })
    }
}
