//! The lines of requests.
ghost use Rattle.std.specs.Prelude.{◌≡◌, ◌≤◌, ◌^◌, ◌++◌, OnOk};
ghost use Rattle.std.specs.List.{flat_map};
ghost use Rattle.pmsi_model.specs.Lines.{kind_text, post_text, row_line, open_row_line};
ghost use Rattle.pmsi_model.specs.Rows.{wait_of};

use pmsi_model::{Kind, OpenRow, Row};
use std::alloc::AllocError;
use text_out::{push_field, push_newline, push_number, push_text};

/// The kind as listings spell it.
pub fn kind_name(kind: Kind) -> &'static str
    ensures { result.now ≡ kind_text kind }
{
    match kind {
        Kind::Read => "read",
        Kind::Write => "write",
    }
}

/// The slots that a request waited, that of its miss and that of its fill counted.
pub fn wait_of(row: &Row) -> u64
    ensures wait { result ≡ wait_of row.now }
    ensures within { result ≤ 2 ^ 32 }
{
    u64::from(row.fill.saturating_sub(row.issue)) + 1
}

/// Appends the line of a request that was served.
#[tactic(auto, unfolding(pmsi_model::specs::Lines::row_line))]
fn push_row_line(out: &mut Vec<u8>, row: &Row) -> Result<(), AllocError>
    ensures { OnOk result (out.new.items ≡ out.old.items ++ row_line row.now) }
{
    push_field(out, "row core ", u64::from(row.core))?;
    push_field(out, " line ", u64::from(row.line))?;
    push_text(out, " ")?;
    push_text(out, kind_name(row.kind))?;
    push_field(out, " issue ", u64::from(row.issue))?;
    push_field(out, " post ", u64::from(row.post))?;
    push_field(out, " fill ", u64::from(row.fill))?;
    push_field(out, " wait ", wait_of(row))?;
    push_newline(out)
}

/// Appends a line for each request that was served.
pub fn push_row_lines(out: &mut Vec<u8>, rows: &[Row]) -> Result<(), AllocError>
    ensures { OnOk result (out.new.items ≡ out.old.items ++ flat_map row_line rows.now) }
{
    for row in rows {
        push_row_line(out, row)?;
    }
    Ok(())
}

/// Appends the slot of a post, or a dash.
fn push_post(out: &mut Vec<u8>, post: Option<u32>) -> Result<(), AllocError>
    ensures { OnOk result (out.new.items ≡ out.old.items ++ post_text post) }
{
    match post {
        Some(slot) => push_number(out, u64::from(slot)),
        None => push_text(out, "-"),
    }
}

/// Appends the line of a request that is open at the boundary before a slot.
#[tactic(auto, unfolding(pmsi_model::specs::Lines::open_row_line))]
pub fn push_open_row_line(out: &mut Vec<u8>, slot: u32, row: &OpenRow) -> Result<(), AllocError>
    ensures { OnOk result (out.new.items ≡ out.old.items ++ open_row_line slot row.now) }
{
    push_field(out, "open core ", u64::from(row.core))?;
    push_field(out, " line ", u64::from(row.line))?;
    push_text(out, " ")?;
    push_text(out, kind_name(row.kind))?;
    push_field(out, " issue ", u64::from(row.issue))?;
    push_text(out, " post ")?;
    push_post(out, row.post)?;
    push_field(out, " age ", u64::from(slot.saturating_sub(row.issue)))?;
    push_newline(out)
}
