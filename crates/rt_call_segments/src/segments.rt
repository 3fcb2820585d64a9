use crate::consuming_rows::names_in;
use crate::held_segments::HeldSegments;
use crate::sealing::{Format, Sealing};
use rt_base::Offset;
use rt_call_schemas::{Tables, write_row};
use rt_call_words::{Answer, Stop, Words};
use rt_segment::{Sealed, SegmentColumn, SegmentRefused, decode, encode};
use std::alloc::Global;

/// `segment BYTES`: reads a file, which later lines use.
pub fn segment(
    alloc: Global,
    segments: &mut HeldSegments,
    words: &mut Words,
    answer: &mut Answer,
) -> Result<(), Stop> {
    let bytes = words.bytes(alloc);
    words.ended()?;
    read(alloc, segments, bytes.as_slice(), answer)
}

fn read(
    alloc: Global,
    segments: &mut HeldSegments,
    bytes: &[u8],
    answer: &mut Answer,
) -> Result<(), Stop> {
    match decode(alloc, bytes) {
        Ok(sealed) => keep(alloc, segments, sealed, answer),
        Err(refused) => refuse(refused, answer),
    }
}

fn keep(
    alloc: Global,
    segments: &mut HeldSegments,
    sealed: Sealed,
    answer: &mut Answer,
) -> Result<(), Stop> {
    write_header(alloc, &sealed, answer)?;
    answer.written()?;
    segments.sealed = Some(sealed);
    Ok(())
}

fn write_header(alloc: Global, sealed: &Sealed, answer: &mut Answer) -> Result<(), Stop> {
    let header = sealed.header(alloc)?;
    answer.add("ok ");
    answer.count(u32::from(sealed.format()));
    answer.add(" ");
    answer.count(header.partition.0);
    answer.add(" ");
    answer.count(header.sequence.0);
    answer.add(" ");
    answer.number(header.range.start.0);
    answer.add(" ");
    answer.number(header.range.end.0);
    answer.add(" ");
    answer.count(header.rows);
    Ok(())
}

fn refuse(refused: SegmentRefused, answer: &mut Answer) -> Result<(), Stop> {
    match refused {
        SegmentRefused::Truncated => answer.add("truncated"),
        SegmentRefused::Magic => answer.add("magic"),
        SegmentRefused::NotCanonical { byte } => {
            answer.add("notcanonical ");
            answer.number(byte);
        }
        SegmentRefused::Digest => answer.add("digest"),
        SegmentRefused::Limit => answer.add("limit"),
        SegmentRefused::Memory => return Err(Stop::Memory),
    }
    Ok(())
}

/// `sealed ..`: calls of the sealed segment.
pub fn sealed(
    alloc: Global,
    tables: &Tables,
    segments: &mut HeldSegments,
    words: &mut Words,
    answer: &mut Answer,
) -> Result<(), Stop> {
    match words.word() {
        "seal" => seal(alloc, segments, words, answer),
        "upgrade" => upgrade(alloc, segments, words, answer),
        "reread" => reread(alloc, segments, words, answer),
        "fits" => fits(tables, segments, words, answer),
        name => ask(alloc, segments.sealed()?, name, words, answer),
    }
}

// What changes nothing.
fn ask(
    alloc: Global,
    sealed: &Sealed,
    name: &str,
    words: &mut Words,
    answer: &mut Answer,
) -> Result<(), Stop> {
    match name {
        "row" => row(alloc, sealed, words, answer),
        "rows" => rows(alloc, sealed, words, answer),
        "column" => column(sealed, words, answer),
        "encode" => encoded(alloc, sealed, words, answer),
        "size" => size(alloc, sealed, words, answer),
        _ => Err(Stop::BadLine),
    }
}

// `upgrade`: the same segment in format 2.
fn upgrade(
    alloc: Global,
    segments: &mut HeldSegments,
    words: &mut Words,
    answer: &mut Answer,
) -> Result<(), Stop> {
    words.ended()?;
    let upgraded = segments.sealed()?.upgrade(alloc)?;
    keep(alloc, segments, upgraded, answer)
}

// `reread`: what its file is read as.
fn reread(
    alloc: Global,
    segments: &mut HeldSegments,
    words: &mut Words,
    answer: &mut Answer,
) -> Result<(), Stop> {
    words.ended()?;
    let bytes = encode(alloc, segments.sealed()?)?;
    read(alloc, segments, bytes.as_slice(), answer)
}

// `encode`: its file.
fn encoded(
    alloc: Global,
    sealed: &Sealed,
    words: &mut Words,
    answer: &mut Answer,
) -> Result<(), Stop> {
    words.ended()?;
    let bytes = encode(alloc, sealed)?;
    answer.bytes(alloc, bytes.as_slice());
    Ok(())
}

// `size`: the bytes of the file.
fn size(
    alloc: Global,
    sealed: &Sealed,
    words: &mut Words,
    answer: &mut Answer,
) -> Result<(), Stop> {
    words.ended()?;
    answer.number(sealed.size(alloc)?);
    Ok(())
}

// `fits`: whether the columns are those of the schema.
fn fits(
    tables: &Tables,
    segments: &HeldSegments,
    words: &mut Words,
    answer: &mut Answer,
) -> Result<(), Stop> {
    words.ended()?;
    let known = tables.schema()?;
    answer.truth(segments.sealed()?.fits(&known.schema));
    Ok(())
}

// `row N`
fn row(alloc: Global, sealed: &Sealed, words: &mut Words, answer: &mut Answer) -> Result<(), Stop> {
    let number = words.count();
    words.ended()?;
    if number >= sealed.rows() {
        return Err(Stop::Refused);
    }
    let row = sealed.row(alloc, number)?;
    write_row(alloc, &row, answer);
    Ok(())
}

// `rows`
fn rows(
    alloc: Global,
    sealed: &Sealed,
    words: &mut Words,
    answer: &mut Answer,
) -> Result<(), Stop> {
    words.ended()?;
    let count = sealed.rows();
    if count == 0 {
        answer.add("-");
    }
    for number in 0..count {
        if number > 0 {
            answer.add("; ");
        }
        let row = sealed.row(alloc, number)?;
        write_row(alloc, &row, answer);
    }
    Ok(())
}

// `column PLACE`: its distinct values by number, the ids of its rows, and where it has postings those of each id.
fn column(sealed: &Sealed, words: &mut Words, answer: &mut Answer) -> Result<(), Stop> {
    let place = words.count();
    words.ended()?;
    match sealed.columns().get(place as usize) {
        Some(column) => {
            write_column(column, answer);
            Ok(())
        }
        None => Err(Stop::Refused),
    }
}

fn write_column(column: &SegmentColumn, answer: &mut Answer) {
    let cardinality = column.dictionary().len();
    answer.count(cardinality);
    answer.add("; ");
    answer.counts(column.ids());
    if column.is_indexed() {
        for id in 0..cardinality {
            answer.add("; ");
            answer.counts(column.docs(id).unwrap_or(&[]));
        }
    }
}

// `seal P/Q END FORMAT INDEXED`: seals what the consuming segment has below an end.
fn seal(
    alloc: Global,
    segments: &mut HeldSegments,
    words: &mut Words,
    answer: &mut Answer,
) -> Result<(), Stop> {
    let segment = words.segment_until(' ');
    let end = Offset(words.number());
    let is_second = words.is_second("1", "2");
    let indexed = names_in(alloc, words)?;
    let sealing = Sealing {
        segment,
        end,
        format: if is_second {
            Format::Second
        } else {
            Format::First
        },
        indexed,
    };
    let sealed = sealing.seal(alloc, segments.consuming()?)?;
    keep(alloc, segments, sealed, answer)
}
