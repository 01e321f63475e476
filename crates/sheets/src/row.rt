// The rows that answer a sheet.
ghost use Rattle.std.specs.Prelude.{◌≡◌, ◌≤◌, [], ◌∷◌, ◌++◌, OnOk, length};
ghost use Rattle.lines.specs.Columns.{columns};
ghost use Rattle.resolver.specs.Served.{buffers_of};
ghost use Rattle.sheets.specs.Replies.{FewRounds, answer_row, front, reply_row};
ghost use Rattle.sheets.specs.Rows.{refusal_row, row};

use crate::refusal::Refusal;
use lines::Row;
use lookup::Resolution;
use resolver::{Answered, Reply};
use std::alloc::AllocError;
use texts::Place;

// The texts of a row.
#[derive(Clone, Copy)]
struct Texts<'a> {
    first: &'a [u8],
    second: &'a [u8],
    third: &'a [u8],
}

// The number that a row begins with where a path is handed out.
const HANDED_OUT: u8 = 0;

// The text of so many bytes at the front of a buffer, if there is one.
fn front(len: Option<usize>, buffer: &[u8]) -> &[u8]
    ensures front_of_the_buffer { result.now ≡ front len buffer.now }
{
    match len {
        Some(len) => Place { start: 0, len }.of(buffer),
        None => &[],
    }
}

// The columns of a row, behind what was written before.
fn push_columns(
    rows: &mut Vec<u8>,
    number: u8,
    rounds: usize,
    texts: Texts,
) -> Result<(), AllocError>
    requires few_rounds { rounds ≤ 999 }
    requires first_is_short { length texts.first.now ≤ 255 }
    requires second_is_short { length texts.second.now ≤ 255 }
    requires third_is_short { length texts.third.now ≤ 255 }
    ensures columns_behind { OnOk result (rows.new.items ≡ rows.old.items ++ columns (number ∷ rounds ∷ length texts.entry.first.now ∷ length texts.entry.second.now ∷ length texts.entry.third.now ∷ [])) }
{
    let row = Row {
        number: u16::from(number),
        rounds: rounds as u16,
        first: texts.first.len() as u16,
        second: texts.second.len() as u16,
        third: texts.third.len() as u16,
    };
    rows.extend_from_slice(&row.write().unwrap())
}

// A row, behind what was written before.
fn push_row(rows: &mut Vec<u8>, number: u8, rounds: usize, texts: Texts) -> Result<(), AllocError>
    requires few_rounds { rounds ≤ 999 }
    requires first_is_short { length texts.first.now ≤ 255 }
    requires second_is_short { length texts.second.now ≤ 255 }
    requires third_is_short { length texts.third.now ≤ 255 }
    ensures row_behind { OnOk result (rows.new.items ≡ rows.old.items ++ row number rounds texts.entry.first.now texts.entry.second.now texts.entry.third.now) }
{
    push_columns(rows, number, rounds, texts)?;
    rows.extend_from_slice(texts.first)?;
    rows.extend_from_slice(texts.second)?;
    rows.extend_from_slice(texts.third)?;
    rows.push(b'\n')?;
    Ok(())
}

/// The row of a line that is refused, behind what was written before.
pub(crate) fn push_refusal(rows: &mut Vec<u8>, refusal: Refusal) -> Result<(), AllocError>
    ensures row_behind { OnOk result (rows.new.items ≡ rows.old.items ++ refusal_row refusal) }
{
    let texts = Texts {
        first: &[],
        second: &[],
        third: &[],
    };
    push_row(rows, refusal.number(), 0, texts)
}

// The row of an answer, behind what was written before.
fn push_resolution(
    rows: &mut Vec<u8>,
    resolution: Resolution,
    reply: &Reply,
) -> Result<(), AllocError>
    requires few_rounds { resolution.rounds ≤ 999 }
    ensures row_behind { OnOk result (rows.new.items ≡ rows.old.items ++ answer_row resolution.outcome resolution.rounds (buffers_of reply.now)) }
{
    let rounds = resolution.rounds;
    match resolution.outcome {
        Ok(found) => {
            let texts = Texts {
                first: front(Some(found.path), &reply.first),
                second: front(found.query, &reply.second),
                third: front(found.fragment, &reply.third),
            };
            push_row(rows, HANDED_OUT, rounds, texts)
        }
        Err(refused) => {
            let texts = Texts {
                first: front(refused.first, &reply.first),
                second: front(refused.second, &reply.second),
                third: &[],
            };
            push_row(rows, refused.error.number(), rounds, texts)
        }
    }
}

/// The row of a reply, behind what was written before; a call that was not resolved has none.
pub(crate) fn push_reply(rows: &mut Vec<u8>, reply: &Reply) -> Result<(), AllocError>
    requires few_rounds { FewRounds reply.now.answered }
    ensures row_behind { OnOk result (rows.new.items ≡ rows.old.items ++ reply_row reply.now) }
{
    match reply.answered {
        Answered::Resolved(resolution) => push_resolution(rows, resolution, reply),
        Answered::Unserved => Ok(()),
        Answered::Forgotten => Ok(()),
        Answered::Counted(_) => Ok(()),
    }
}
