//! The lines that tell why files are refused.
ghost use Rattle.std.specs.Prelude.{◌≡◌, ◌++◌, codes, IfOk, OnOk};
ghost use Rattle.std.specs.Fmt.{signed_decimal};
ghost use Rattle.pmsi_tool.specs.Lines.{cause_text, check_text, detail_text, fault_text, head_text, line_text, place_text, refused_line, script_text, script_why_text, why_text};

use asm_parse::AsmCause;
use image_file::ImageFault;
use job_text::{HeadWord, JobFault, LineCause};
use script_text::{ScriptCause, ScriptFault};
use std::alloc::{AllocError, Global};
use text_out::{push_field, push_hex_field, push_newline, push_signed, push_text};
use tool_files::{Detail, Place};

/// The line of a refusal.
pub(crate) fn refusal_line(
    alloc: Global,
    place: Place,
    detail: Detail,
) -> Result<Vec<u8>, AllocError>
    ensures { IfOk result (λ line. line.items ≡ refused_line place detail) }
{
    let mut line = Vec::new(alloc);
    push_text(&mut line, "refused: ")?;
    push_place(&mut line, place)?;
    push_text(&mut line, ": ")?;
    push_detail(&mut line, detail)?;
    push_newline(&mut line)?;
    Ok(line)
}

fn push_place(line: &mut Vec<u8>, place: Place) -> Result<(), AllocError>
    ensures { OnOk result (line.new.items ≡ line.old.items ++ place_text place) }
{
    match place {
        Place::Input => push_text(line, "input"),
        Place::Core(core) => push_field(line, "core ", core.into()),
        Place::Script => push_text(line, "script"),
    }
}

fn push_detail(line: &mut Vec<u8>, detail: Detail) -> Result<(), AllocError>
    ensures { OnOk result (line.new.items ≡ line.old.items ++ detail_text detail) }
{
    match detail {
        Detail::Large => push_text(line, "large"),
        Detail::NotText => push_text(line, "not text"),
        Detail::Job(fault) => push_fault(line, fault),
        Detail::Source(number, cause) => {
            push_line_number(line, number)?;
            push_cause(line, cause)
        }
        Detail::Image(fault) => push_check(line, fault),
        Detail::Touches(count) => push_field(line, "touches ", count),
        Detail::Script(fault) => push_script_fault(line, fault),
    }
}

fn push_line_number(line: &mut Vec<u8>, number: u32) -> Result<(), AllocError>
    ensures { OnOk result (line.new.items ≡ line.old.items ++ line_text number) }
{
    push_field(line, "line ", number.into())?;
    push_text(line, ": ")
}

fn push_script_fault(line: &mut Vec<u8>, fault: ScriptFault) -> Result<(), AllocError>
    ensures { OnOk result (line.new.items ≡ line.old.items ++ script_text fault) }
{
    match fault {
        ScriptFault::NotText => push_text(line, "not text"),
        ScriptFault::Line(number, cause) => {
            push_line_number(line, number)?;
            push_text(line, script_why(cause))
        }
        ScriptFault::NoMemory => push_text(line, "no memory"),
    }
}

fn script_why(cause: ScriptCause) -> &'static str
    ensures { result.now ≡ script_why_text cause }
{
    match cause {
        ScriptCause::Word => "word",
        ScriptCause::Count => "count",
        ScriptCause::Number => "number",
        ScriptCause::Range => "range",
        ScriptCause::Many => "many",
    }
}

fn push_fault(line: &mut Vec<u8>, fault: JobFault) -> Result<(), AllocError>
    ensures { OnOk result (line.new.items ≡ line.old.items ++ fault_text fault) }
{
    match fault {
        JobFault::NotText => push_text(line, "not text"),
        JobFault::Line(number, cause) => {
            push_line_number(line, number)?;
            push_text(line, why(cause))
        }
        JobFault::Twice(head) => push_head(line, "twice ", head),
        JobFault::Missing(head) => push_head(line, "missing ", head),
        JobFault::Limit(head, value) => {
            push_head(line, "limit ", head)?;
            push_field(line, " ", value)
        }
        JobFault::Beyond(core, address) => {
            push_field(line, "beyond ", core.into())?;
            push_hex_field(line, " ", address)
        }
        JobFault::Overlap(core, other, address) => push_overlap(line, core, other, address),
        JobFault::NoMemory => push_text(line, "no memory"),
    }
}

fn push_overlap(line: &mut Vec<u8>, core: u32, other: u32, address: u32) -> Result<(), AllocError>
    ensures { OnOk result (line.new.items ≡ line.old.items ++ fault_text (JobFault.Overlap core other address)) }
{
    push_field(line, "overlap ", core.into())?;
    push_field(line, " ", other.into())?;
    push_hex_field(line, " ", address)
}

fn why(cause: LineCause) -> &'static str
    ensures { result.now ≡ why_text cause }
{
    match cause {
        LineCause::Version => "version",
        LineCause::Word => "word",
        LineCause::Count => "count",
        LineCause::Number => "number",
    }
}

/// A head behind a text.
fn push_head(line: &mut Vec<u8>, text: &str, head: HeadWord) -> Result<(), AllocError>
    ensures { OnOk result (line.new.items ≡ line.old.items ++ text.now ++ head_text head) }
{
    push_text(line, text)?;
    match head {
        HeadWord::Version => push_text(line, "version"),
        HeadWord::Cores => push_text(line, "cores"),
        HeadWord::Quantum => push_text(line, "quantum"),
        HeadWord::Line => push_text(line, "line"),
        HeadWord::Sets => push_text(line, "sets"),
        HeadWord::Ways => push_text(line, "ways"),
        HeadWord::Memory => push_text(line, "memory"),
        HeadWord::Slots => push_text(line, "slots"),
        HeadWord::Core(core) => push_field(line, "core ", core.into()),
    }
}

fn push_check(line: &mut Vec<u8>, fault: ImageFault) -> Result<(), AllocError>
    ensures { OnOk result (line.new.items ≡ line.old.items ++ check_text fault) }
{
    match fault {
        ImageFault::Short(needed, have) => {
            push_field(line, "short ", needed.into())?;
            push_field(line, " ", have.into())
        }
        ImageFault::Magic => push_text(line, "magic"),
        ImageFault::Limit(count) => push_field(line, "limit ", count.into()),
        ImageFault::Range(address) => push_hex_field(line, "range ", address),
        ImageFault::Order(piece) => push_field(line, "order ", piece.into()),
        ImageFault::Extra(place) => push_field(line, "extra ", place.into()),
        ImageFault::NoMemory => push_text(line, "no memory"),
    }
}

fn push_cause(line: &mut Vec<u8>, cause: AsmCause) -> Result<(), AllocError>
    ensures { OnOk result (line.new.items ≡ line.old.items ++ cause_text cause) }
{
    match cause {
        AsmCause::Character(column) => push_field(line, "character ", column.into()),
        AsmCause::Word(column) => push_field(line, "word ", column.into()),
        AsmCause::Operand(column) => push_field(line, "operand ", column.into()),
        AsmCause::Number(column) => push_field(line, "number ", column.into()),
        AsmCause::TextLong => push_text(line, "text long"),
        AsmCause::Twice(column) => push_field(line, "twice ", column.into()),
        AsmCause::Overlap(address) => push_hex_field(line, "overlap ", address),
        AsmCause::Range(address) => push_hex_field(line, "range ", address),
        AsmCause::Unknown(column) => push_field(line, "unknown ", column.into()),
        AsmCause::Reach(distance) => push_distance(line, distance),
    }
}

fn push_distance(line: &mut Vec<u8>, distance: i64) -> Result<(), AllocError>
    ensures { OnOk result (line.new.items ≡ line.old.items ++ codes "reach " ++ signed_decimal distance) }
{
    push_text(line, "reach ")?;
    push_signed(line, distance)
}
