//! What queries give, and those of the templates of map algebra.

use crate::answers::{cell_refusal, expand_refusal, say_evaluated, say_outcome};
use crate::coverages::Coverages;
use crate::texts::typed;
use anyhow::{Result, bail};
use arr_core::Name;
use map_templates::{Layer, Params, expand};
use std::alloc::Global;
use test_rows::{Answer, cut, cut_at, index, integer, point};
use wcps_mean::{Part, QueryPart, eval_plain, value_at};
use wcps_types::TypedQuery;

/// The name of a field; none for no word.
fn field(alloc: Global, word: &str) -> Result<Option<Name>> {
    if word.is_empty() {
        return Ok(None);
    }
    Ok(Some(Name::new(alloc, word)?))
}

/// A layer, as `w` or `d.n`.
fn layer(alloc: Global, word: &str) -> Result<Layer> {
    let (coverage, name) = cut_at(word, '.');
    let coverage = Name::new(alloc, coverage)?;
    let field = field(alloc, name)?;
    Ok(Layer { coverage, field })
}

/// A layer that may not be given.
fn second_layer(alloc: Global, word: &str) -> Result<Option<Layer>> {
    if word == "-" {
        return Ok(None);
    }
    Ok(Some(layer(alloc, word)?))
}

/// A layer, the second layer and the radius, as `w z 1`; `-` for one that is not given.
fn params(alloc: Global, words: &str) -> Result<Params> {
    let (first, words) = cut(words);
    let (second, radius) = cut(words);
    let radius = match radius {
        "-" => None,
        _ => Some(integer(radius)?),
    };
    let layer = layer(alloc, first)?;
    let second = second_layer(alloc, second)?;
    Ok(Params {
        layer,
        second,
        radius,
    })
}

/// A point of a part of a combination.
#[derive(Drop)]
struct Place {
    combination: usize,
    part: Part,
    point: Vec<i32>,
}

/// The part of a combination that a word names, as `where` or `field:1`; the first field is that of no number.
fn part(word: &str) -> Result<Part> {
    let (name, field) = cut_at(word, ':');
    let field = if field.is_empty() { 0 } else { index(field)? };
    Ok(match name {
        "where" => Part::Condition,
        "field" => Part::Field(field),
        "condenser_where" => Part::CondenserCondition(field),
        "condenser_using" => Part::CondenserValue(field),
        _ => bail!("no such part"),
    })
}

impl Coverages {
    /// The text of a query's items, or its refusal.
    pub fn say_query(&mut self, alloc: Global, answer: &mut Answer, text: &str) -> Result<()> {
        match typed(alloc, &self.signatures, text) {
            Ok(query) => return self.evaluate(alloc, answer, &query),
            Err(refusal) => answer.refusal(refusal.number()),
        }
        Ok(())
    }

    /// What a query gives, evaluated plainly.
    pub fn evaluate(
        &mut self,
        alloc: Global,
        answer: &mut Answer,
        query: &TypedQuery,
    ) -> Result<()> {
        self.list(query)?;
        let items = eval_plain(alloc, self, query);
        say_evaluated(alloc, answer, items);
        Ok(())
    }

    /// The query of a template, as `FocalSum w - 1`, or its refusal.
    pub fn say_expanded(&self, alloc: Global, answer: &mut Answer, words: &str) -> Result<()> {
        let (template, words) = cut(words);
        let params = params(alloc, words)?;
        match expand(alloc, template, &params, &self.signatures) {
            Ok(query) => answer.say(query.as_str()),
            Err(error) => answer.refusal(expand_refusal(&error).number()),
        }
        Ok(())
    }

    /// The text of the items of a template's query, or the refusal of the template or of that query.
    pub fn say_processed(&mut self, alloc: Global, answer: &mut Answer, words: &str) -> Result<()> {
        let (template, words) = cut(words);
        let params = params(alloc, words)?;
        match expand(alloc, template, &params, &self.signatures) {
            Ok(query) => self.say_query(alloc, answer, query.as_str())?,
            Err(error) => answer.refusal(expand_refusal(&error).number()),
        }
        Ok(())
    }

    /// The outcome of a part of a query, as `0 field:0 - for c in (lai) return 1`: the combination, the part and the
    /// point; `none` where there is none.
    pub fn say_part(&mut self, alloc: Global, answer: &mut Answer, words: &str) -> Result<()> {
        let (combination, words) = cut(words);
        let (name, words) = cut(words);
        let (coordinates, text) = cut(words);
        let place = Place {
            combination: index(combination)?,
            part: part(name)?,
            point: point(alloc, coordinates)?,
        };
        match typed(alloc, &self.signatures, text) {
            Ok(query) => return self.say_value(alloc, answer, &query, &place),
            Err(refusal) => answer.refusal(refusal.number()),
        }
        Ok(())
    }

    fn say_value(
        &mut self,
        alloc: Global,
        answer: &mut Answer,
        query: &TypedQuery,
        place: &Place,
    ) -> Result<()> {
        self.list(query)?;
        let Some(part) = QueryPart::find(alloc, query, place.combination, place.part)? else {
            answer.say("none");
            return Ok(());
        };
        match value_at(alloc, self, &part, &place.point) {
            Ok(outcome) => say_outcome(answer, outcome),
            Err(error) => answer.refusal(cell_refusal(error).number()),
        }
        Ok(())
    }
}
