// Searches, and records that are seized and freed.
ghost use Rattle.std.specs.Prelude.{◌≡◌, ◌+◌, ◌<◌, ◌^◌, ◌++◌, length, slice_get, OnOk};
ghost use Rattle.exchange_model.specs.Cells.{record_cells};
ghost use Rattle.exchange_model.specs.declared.stmt.StmtKind.TheOpen as layer;
ghost use Rattle.stmt_code.specs.RecordCode.{for_first_code, free_code, free_search_code};
ghost use Rattle.stmt_code.specs.RecordCode.{inits_code, search_code, seize_code};
ghost use Rattle.code_gen.specs.Settings.{IsFieldIn, IsIn, IsSetting, code_in, placed_of};
ghost use Rattle.code_gen.specs.Settings.{places_in};

use crate::addresses::{address_after, address_plus};
use crate::data::{push_pointer, word_in};
use crate::setting::{Setting, Spot};
use crate::value::{push_code, value_code};
use exchange_model::{Expr, FilePlace, Rel};
use expr_code::{push_all, rel_op};
use machine_code::Op;
use plex_num::{Memory, Seq};
use std::alloc::Global;
use stmt_code::{AGAIN_LENGTH, FOUND_LENGTH, LOOK_LENGTH};

/// A temporary gets the least record whose field stands so to a value, and the text goes on at a
/// label.
#[tactic(auto, using(crate::proofs::Inside::for_first_value, crate::proofs::Inside::for_first_field, crate::proofs::RecordSteps::for_first_is))]
pub fn for_first(
    alloc: Global,
    temp: u8,
    file: u32,
    field: u32,
    rel: Rel,
    value: &Expr,
    label: u32,
    at: &Setting<'_>,
    spot: Spot,
    ops: &mut Seq<Op>,
) -> Result<(), Memory>
    requires { IsIn at.now spot.loops (layer.ForFirst temp file field rel value.now label) }
    ensures { OnOk result (ops.new ≡ ops.old ++ code_in
        (layer.ForFirst temp file field rel value.now label) at.now spot) }
{
    let value = value_code(alloc, value, at, 0)?;
    let start = address_after(spot.start, value.len(), 1)?;
    push_all(ops, &[Op::Stmt { p: spot.point }])?;
    push_code(&value, ops)?;
    push_search(temp, file, field, rel, at.label(label), start, at, ops)
}

/// Appends the search, the code of which begins at `start`: register 0 has the value, and register
/// 1 counts the records.
#[tactic(auto, using(crate::proofs::RecordSteps::searching, crate::proofs::Inside::in_file))]
fn push_search(
    temp: u8,
    file: u32,
    field: u32,
    rel: Rel,
    label: u32,
    start: u32,
    at: &Setting<'_>,
    ops: &mut Seq<Op>,
) -> Result<(), Memory>
    requires { IsFieldIn at.now file field }
    ensures { OnOk result (ops.new ≡ ops.old ++ for_first_code (slice_get
        (places_in at.now).site.files file) temp field rel label start) }
{
    let Some(place) = at.file(file) else {
        return Ok(());
    };
    let word = word_in(&place, field);
    push_search_in(temp, &place, word, rel, label, start, ops)
}

/// Appends the search through the records of a file, the first of which has its field at `word`.
#[tactic(auto, using(crate::proofs::RecordSteps::search_steps))]
fn push_search_in(
    temp: u8,
    place: &FilePlace<'_>,
    word: u32,
    rel: Rel,
    label: u32,
    start: u32,
    ops: &mut Seq<Op>,
) -> Result<(), Memory>
    requires { record_cells place.now.file.now < 2 ^ 32 }
    ensures { OnOk result
        (ops.new ≡ ops.old ++ search_code place.now.file.now word temp rel label start) }
{
    let head = address_plus(start, 1)?;
    let other = address_plus(head, LOOK_LENGTH + FOUND_LENGTH)?;
    let end = address_plus(other, AGAIN_LENGTH)?;
    let load = Op::Ldx {
        r: 2,
        w: word,
        n: place.file.record_cells(),
        s: 1,
    };
    push_all(
        ops,
        &[
            Op::Ldi { r: 1, n: 0 },
            Op::Ldi {
                r: 2,
                n: place.file.size,
            },
            Op::Gt { r: 2, s: 1 },
            Op::Jz { r: 2, a: end },
            load,
            rel_op(rel, 2, 0),
            Op::Jz { r: 2, a: other },
            Op::Stt { i: temp, r: 1 },
            Op::Jmp { a: label },
            Op::Ldi { r: 2, n: 1 },
            Op::Add { r: 1, s: 2 },
            Op::Jmp { a: head },
        ],
    )
}

/// The least free record is seized, and a temporary gets its number; where there is none, the text
/// goes on at a label.
#[tactic(auto, using(crate::proofs::Inside::in_setting, crate::proofs::RecordSteps::seize_is))]
pub fn seize(
    temp: u8,
    file: u32,
    label: u32,
    at: &Setting<'_>,
    spot: Spot,
    ops: &mut Seq<Op>,
) -> Result<(), Memory>
    requires { IsIn at.now spot.loops (layer.Seize temp file label) }
    ensures { OnOk result (ops.new ≡ ops.old ++ code_in (layer.Seize temp file label) at.now spot) }
{
    let start = address_plus(spot.start, 1)?;
    push_all(ops, &[Op::Stmt { p: spot.point }])?;
    push_seize(temp, file, at.label(label), start, at, ops)
}

/// Appends the search for a free record, the code of which begins at `start`, and how the record is
/// seized.
#[tactic(auto, using(crate::proofs::RecordSteps::seizing))]
fn push_seize(
    temp: u8,
    file: u32,
    label: u32,
    start: u32,
    at: &Setting<'_>,
    ops: &mut Seq<Op>,
) -> Result<(), Memory>
    requires { IsSetting at.now }
    ensures { OnOk result (ops.new ≡ ops.old ++ seize_code (slice_get
        (places_in at.now).site.files file) file temp label start) }
{
    let Some(place) = at.file(file) else {
        return Ok(());
    };
    let mark = mark_of(&place);
    push_seize_in(temp, file, &place, mark, label, start, ops)
}

/// The word of the mark of a file's first record.
fn mark_of(place: &FilePlace<'_>) -> u32
    requires { place.now.first + record_cells place.now.file.now < 2 ^ 32 }
    ensures { result ≡ place.now.first + length place.now.file.now.fields }
{
    place.first + place.file.fields.len() as u32
}

/// Appends the search through the marks of a file, the first of which stands at `mark`, and how a
/// record is seized.
fn push_seize_in(
    temp: u8,
    file: u32,
    place: &FilePlace<'_>,
    mark: u32,
    label: u32,
    start: u32,
    ops: &mut Seq<Op>,
) -> Result<(), Memory>
    requires { record_cells place.now.file.now < 2 ^ 32 }
    ensures { OnOk result
        (ops.new ≡ ops.old ++ free_search_code place.now.file.now mark file temp label start) }
{
    let head = address_plus(start, 2)?;
    let free = address_plus(head, LOOK_LENGTH + 1 + AGAIN_LENGTH)?;
    let cells = place.file.record_cells();
    push_all(
        ops,
        &[
            Op::Ckf,
            Op::Ldi { r: 1, n: 0 },
            Op::Ldi {
                r: 2,
                n: place.file.size,
            },
            Op::Gt { r: 2, s: 1 },
            Op::Jz { r: 2, a: label },
            Op::Ldx {
                r: 2,
                w: mark,
                n: cells,
                s: 1,
            },
            Op::Jz { r: 2, a: free },
            Op::Ldi { r: 2, n: 1 },
            Op::Add { r: 1, s: 2 },
            Op::Jmp { a: head },
            Op::Chn { r: 1, f: file },
            Op::Ldi { r: 2, n: 1 },
            Op::Stx {
                w: mark,
                n: cells,
                s: 1,
                r: 2,
            },
            Op::Stt { i: temp, r: 1 },
        ],
    )
}

/// A record becomes free, and its fields get their INIT values.
#[tactic(auto, using(crate::proofs::Inside::in_setting, crate::proofs::RecordSteps::free_is))]
pub fn free(
    temp: u8,
    file: u32,
    at: &Setting<'_>,
    spot: Spot,
    ops: &mut Seq<Op>,
) -> Result<(), Memory>
    requires { IsIn at.now spot.loops (layer.Free temp file) }
    ensures { OnOk result (ops.new ≡ ops.old ++ code_in (layer.Free temp file) at.now spot) }
{
    push_all(ops, &[Op::Stmt { p: spot.point }])?;
    push_free(temp, file, at, ops)
}

/// Appends how a record becomes free.
#[tactic(auto, using(crate::proofs::RecordSteps::freeing))]
fn push_free(temp: u8, file: u32, at: &Setting<'_>, ops: &mut Seq<Op>) -> Result<(), Memory>
    requires { IsSetting at.now }
    ensures { OnOk result (ops.new ≡ ops.old ++ free_code (slice_get
        (places_in at.now).site.files file) file temp) }
{
    let Some(place) = at.file(file) else {
        return Ok(());
    };
    let store = Op::Stx {
        w: mark_of(&place),
        n: place.file.record_cells(),
        s: 0,
        r: 1,
    };
    push_all(ops, &[Op::Ldt { r: 0, i: temp }])?;
    push_pointer(&place, file, 0, ops)?;
    push_inits(&place, ops)?;
    push_all(
        ops,
        &[Op::Ldi { r: 1, n: 0 }, store, Op::Unc { r: 0, f: file }],
    )
}

/// Appends the code by which the fields of the record in register 0 get their INIT values.
#[tactic(auto, using(crate::proofs::RecordSteps::inits_more, crate::proofs::RecordSteps::inits_end))]
fn push_inits(place: &FilePlace<'_>, ops: &mut Seq<Op>) -> Result<(), Memory>
    requires { place.now.first + record_cells place.now.file.now < 2 ^ 32 }
    ensures { OnOk result (ops.new ≡ ops.old ++ inits_code
        (placed_of place.now) 0 place.now.file.now.fields) }
{
    let cells = place.file.record_cells();
    let mut word = place.first;
    for field in place.file.fields.as_slice() {
        push_all(
            ops,
            &[
                Op::Ldi {
                    r: 1,
                    n: field.init,
                },
                Op::Stx {
                    w: word,
                    n: cells,
                    s: 0,
                    r: 1,
                },
            ],
        )?;
        word += 1;
    }
    Ok(())
}
