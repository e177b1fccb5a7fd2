//! Names, cells, fields, domains and tiles.

use crate::storage::words::say_list;
use anyhow::Result;
use arr_core::{Domain, Name, refusal_name};
use std::alloc::Global;
use test_rows::{
    Answer, axes, cell, coordinate, cut, domain, fields, index, kind, number, point, say_domain,
    text,
};

const BAD_DOMAIN: u16 = 22;

const BAD_FIELD: u16 = 23;

/// A name, of which a copy is the same one.
fn say_name(alloc: Global, answer: &mut Answer, name: &Name) -> Result<()> {
    let copy = name.copy(alloc)?;
    answer.say(if name.is_same(&copy) {
        name.as_str()
    } else {
        "not its copy"
    });
    Ok(())
}

/// The name of a text; `BadName` where the text is none.
fn name(alloc: Global, answer: &mut Answer, written: &str) -> Result<()> {
    let words = text(alloc, written)?;
    match Name::new(alloc, words.as_str()) {
        Ok(name) => say_name(alloc, answer, &name)?,
        Err(_) => answer.say("BadName"),
    }
    Ok(())
}

/// The name of a refusal.
fn refusal(answer: &mut Answer, word: &str) -> Result<()> {
    answer.say(refusal_name(word.parse::<u16>()?));
    Ok(())
}

/// How many points and tiles a domain has, as `4225 points, 4 tiles`.
fn say_size(answer: &mut Answer, domain: &Domain) {
    answer.count(domain.points());
    answer.say(" points, ");
    answer.count(domain.tiles());
    answer.say(" tiles");
}

/// The size of a domain, or its refusal.
fn size(alloc: Global, answer: &mut Answer, words: &str) -> Result<()> {
    match Domain::new(axes(alloc, words)?) {
        Ok(domain) => say_size(answer, &domain),
        Err(_) => answer.refusal(BAD_DOMAIN),
    }
    Ok(())
}

/// The place of a point and the number of its tile, as `65 in tile 0`.
fn rank(alloc: Global, answer: &mut Answer, domain: &Domain, words: &str) -> Result<()> {
    let point = point(alloc, words)?;
    if domain.contains(&point) {
        answer.count(domain.rank(&point));
        answer.say(" in tile ");
        answer.count(domain.tile_of(&point));
    } else {
        answer.say("outside");
    }
    Ok(())
}

/// The point at a place.
fn unrank(alloc: Global, answer: &mut Answer, domain: &Domain, place: u64) -> Result<()> {
    if place < domain.points() {
        say_list(alloc, answer, &domain.unrank(alloc, place)?);
    } else {
        answer.say("outside");
    }
    Ok(())
}

/// The box of a tile.
fn tile_box(alloc: Global, answer: &mut Answer, domain: &Domain, tile: u64) -> Result<()> {
    if tile < domain.tiles() {
        say_domain(answer, &domain.tile_box(alloc, tile)?);
    } else {
        answer.say("none");
    }
    Ok(())
}

/// The tiles that a box meets.
fn meeting(alloc: Global, answer: &mut Answer, whole: &Domain, words: &str) -> Result<()> {
    let area = domain(alloc, words)?;
    say_list(alloc, answer, &whole.tiles_meeting(alloc, &area)?);
    Ok(())
}

/// The domain with other bounds of an axis, as `0 5 6`.
fn narrow(alloc: Global, answer: &mut Answer, domain: &Domain, words: &str) -> Result<()> {
    let (axis, bounds) = cut(words);
    let (lo, hi) = cut(bounds);
    let axis = index(axis)?;
    let lo = coordinate(lo)?;
    let hi = coordinate(hi)?;
    if domain.can_narrow(axis, lo, hi) {
        say_domain(answer, &domain.narrow(alloc, axis, lo, hi)?);
    } else {
        answer.say("no");
    }
    Ok(())
}

/// The domain without an axis.
fn drop_axis(alloc: Global, answer: &mut Answer, domain: &Domain, axis: usize) -> Result<()> {
    if axis < domain.axes().len() {
        say_domain(answer, &domain.drop_axis(alloc, axis)?);
    } else {
        answer.say("no");
    }
    Ok(())
}

/// Whether axes are those of a box of a domain.
fn is_box(alloc: Global, answer: &mut Answer, whole: &Domain, words: &str) -> Result<()> {
    let area = domain(alloc, words)?;
    answer.yes(area.is_box_of(whole));
    Ok(())
}

/// A place, or `none`.
fn say_place(answer: &mut Answer, place: Option<usize>) {
    match place {
        Some(place) => answer.count(place as u64),
        None => answer.say("none"),
    }
}

/// A call on a domain.
fn on_domain(
    alloc: Global,
    answer: &mut Answer,
    domain: &Domain,
    verb: &str,
    words: &str,
) -> Result<()> {
    match verb {
        "rank" => rank(alloc, answer, domain, words)?,
        "unrank" => unrank(alloc, answer, domain, number(words)?)?,
        "tile_box" => tile_box(alloc, answer, domain, number(words)?)?,
        "tiles_meeting" => meeting(alloc, answer, domain, words)?,
        "narrow" => narrow(alloc, answer, domain, words)?,
        "drop_axis" => drop_axis(alloc, answer, domain, index(words)?)?,
        "is_box" => is_box(alloc, answer, domain, words)?,
        "axis" => say_place(answer, domain.place_of(words)),
        _ => answer.wrong("no such call"),
    }
    Ok(())
}

/// A call on the domain of axes, as `rank x(0:64) 5`.
fn of_domain(alloc: Global, answer: &mut Answer, verb: &str, words: &str) -> Result<()> {
    let (axes, rest) = cut(words);
    let whole = domain(alloc, axes)?;
    on_domain(alloc, answer, &whole, verb, rest)
}

/// Whether fields may be those of a coverage, as `2 fields`, or their refusal.
fn field_count(alloc: Global, answer: &mut Answer, words: &str) -> Result<()> {
    let fields = fields(alloc, words)?;
    if fields.are_fields() {
        answer.count(fields.copy(alloc)?.len() as u64);
        answer.say(" fields");
    } else {
        answer.refusal(BAD_FIELD);
    }
    Ok(())
}

/// The place of a field with a name.
fn field(alloc: Global, answer: &mut Answer, words: &str) -> Result<()> {
    let (list, name) = cut(words);
    let fields = fields(alloc, list)?;
    say_place(answer, fields.place_of(name));
    Ok(())
}

/// Whether a field of a type may have a cell.
fn holds(answer: &mut Answer, words: &str) -> Result<()> {
    let (type_name, word) = cut(words);
    let kind = kind(type_name)?;
    answer.yes(kind.holds(cell(word)?));
    Ok(())
}

/// A call on a name, a cell, fields or a domain.
pub fn call(alloc: Global, answer: &mut Answer, verb: &str, words: &str) -> Result<()> {
    match verb {
        "name" => name(alloc, answer, words),
        "refusal" => refusal(answer, words),
        "holds" => holds(answer, words),
        "fields" => field_count(alloc, answer, words),
        "field" => field(alloc, answer, words),
        "domain" => size(alloc, answer, words),
        _ => of_domain(alloc, answer, verb, words),
    }
}
