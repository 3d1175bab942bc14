//! What a checker keeps of lines that are good, and how it takes the next.
ghost use Rattle.std.specs.Prelude.{ℕ, ◌≡◌, ◌+◌, ◌^◌, ◌<◌, ◌++◌, ◌∷◌, [], List, None, Ok, IfNone, IfSome, OnOk};
ghost use Rattle.std.specs.Prelude.{is_some, length};
ghost use Rattle.result_reader.specs.ReadSoFar.{ReadSoFar, read_so_far};
ghost use Rattle.result_lines.specs.OfBasin.{IsOfBasin};
ghost use Rattle.result_lines.specs.declared.item.Item.{Item};
ghost use Rattle.result_lines.specs.declared.item.Item.TheVariants as line;
ghost use Rattle.water_text.specs.LinesIn.{TakesToFeed};
ghost use Rattle.cert_check.specs.Auditing.{IsAuditIfAny};
ghost use Rattle.cert_check.specs.Checking.{first_row, named_line};
ghost use Rattle.cert_check.specs.Coming.{MayCome};
ghost use Rattle.cert_check.specs.Keeping.{Keeps};
ghost use Rattle.cert_check.specs.Context.{IsContext};
ghost use Rattle.cert_check.specs.Standing.{Counts, IsProgressOf};
ghost use Rattle.cert_check.specs.Taking.{HasItems, HasLines, IsRead, TakesItem, TakesLine};

use crate::audit::{Audit, audit_item};
use crate::compare::{is_done, is_member};
use crate::entering::{enter, enter_node};
use crate::ready::make_ready;
use crate::refusing::first_row;
use crate::refuted::{Refuted, RefutedKind};
use crate::state::{CheckState, Context};
use result_lines::item::Item;
use result_reader::ResultReader;

/// What is kept of lines none of which is at fault.
#[derive(Drop)]
pub struct CheckProgress<'b> {
    /// What may come next.
    pub reader: ResultReader<'b>,
    /// What the lines say.
    pub state: Box<CheckState>,
    /// How many lines there are.
    pub read: u64,
    /// The number of the last line that is no `in` line. While the nodes of a `call` come, it is that line's.
    pub last_other: u64,
    /// Whether the text has its last line.
    pub ended: bool,
    /// What an audit keeps of the lines, if one was asked for.
    pub audit: Option<Audit>,
}

/// The number of the line that a row names: for a loose cut its `call` line, and else the next line.
fn named_line(progress: &CheckProgress, kind: RefutedKind) -> u64
    requires { progress.now.read + 1 < 2 ^ 64 }
    ensures { (items : List Item) → Counts progress.now items → result ≡ named_line items kind }
{
    match kind {
        RefutedKind::CutLoose => progress.last_other,
        _ => progress.read + 1,
    }
}

/// Counts a line.
fn count(progress: &mut CheckProgress, item: &Item)
    requires { progress.old.read + 1 < 2 ^ 64 }
    ensures counts { (items : List Item) → Counts progress.old items → Counts progress.new (items ++ item.now ∷ []) }
    ensures state { progress.new.state ≡ progress.old.state }
    ensures reader { progress.new.reader ≡ progress.old.reader }
    ensures audit { progress.new.audit ≡ progress.old.audit }
{
    progress.read += 1;
    if !is_member(item) {
        progress.last_other = progress.read;
    }
    if is_done(item) {
        progress.ended = true;
    }
}

/// Takes a good line into the audit, if one was asked for, before it is entered. It is inlined, so that where none was
/// a line costs no call.
#[inline(always)]
fn take_audit(context: &Context, progress: &mut CheckProgress, item: &Item)
    requires context { IsContext context.now }
    requires item { IsOfBasin context.now.basin.now item.now }
    requires so_far { HasItems context.now.basin.now context.now.series.now progress.old item.now }
    requires good { (t : ReadSoFar) → Keeps context.now.basin.now context.now.series.now progress.old.state.value t →
        MayCome context.now.basin.now context.now.series.now t item.now →
        first_row context.now.basin.now context.now.series.now t item.now ≡ None }
    requires room { progress.old.read + 1 < 2 ^ 64 }
    ensures audit { (items : List Item) → IsRead context.now.basin.now context.now.series.now progress.old items
        item.now →
        IsAuditIfAny context.now.basin.now
        (read_so_far context.now.basin.now context.now.series.now (items ++ item.now ∷ []))
        (items ++ item.now ∷ []) progress.new.audit }
    ensures audited { is_some progress.new.audit ≡ is_some progress.old.audit }
    ensures keeps { (t : ReadSoFar) → Keeps context.now.basin.now context.now.series.now progress.old.state.value t →
        Keeps context.now.basin.now context.now.series.now progress.new.state.value t }
    ensures callers { progress.new.state.value.has_callers ≡ progress.old.state.value.has_callers }
    ensures rest { progress.new ≡ record progress.old { state = progress.new.state; audit = progress.new.audit } }
{
    let number = progress.read + 1;
    match &mut progress.audit {
        Some(audit) => audit_item(context, audit, &mut *progress.state, item, number),
        None => {}
    }
}

/// Takes what the next line says, or refuses it for the first row that holds of it.
#[inline(always)]
fn take_item(context: &Context, progress: &mut CheckProgress, item: &Item) -> Result<(), Refuted>
    requires context { IsContext context.now }
    requires item { IsOfBasin context.now.basin.now item.now }
    requires so_far { HasItems context.now.basin.now context.now.series.now progress.old item.now }
    requires room { progress.old.read + 1 < 2 ^ 64 }
    ensures takes { (items : List Item) → IsRead context.now.basin.now context.now.series.now progress.old items
        item.now →
        TakesItem context.now.basin.now context.now.series.now progress.new items item.now result }
    ensures reader { progress.new.reader ≡ progress.old.reader }
    ensures audited { is_some progress.new.audit ≡ is_some progress.old.audit }
{
    make_ready(context, &mut *progress.state, item);
    match first_row(context, &progress.state, item) {
        Some(kind) => Err(Refuted {
            line: named_line(progress, kind),
            kind,
        }),
        None => {
            take_audit(context, progress, item);
            enter(context, &mut *progress.state, item);
            count(progress, item);
            Ok(())
        }
    }
}

/// Takes the next line, without its line feed, or refuses it. A refused line leaves check progress that says nothing.
pub fn take_line(
    context: &Context,
    progress: &mut CheckProgress,
    text: &[u8],
) -> Result<(), Refuted>
    requires context { IsContext context.now }
    requires lines { HasLines context.now.basin.now context.now.series.now progress.old }
    ensures takes { (lines : List (List ℕ)) → IsProgressOf context.now.basin.now context.now.series.now progress.old
        lines →
        TakesLine context.now.basin.now context.now.series.now progress.new (lines ++ text.now ∷ []) result }
    ensures left { OnOk result (progress.new.reader.left + 1 ≡ progress.old.reader.left) }
    ensures audited { is_some progress.new.audit ≡ is_some progress.old.audit }
{
    let next = progress.read + 1;
    if progress.ended {
        return Err(Refuted {
            line: next,
            kind: RefutedKind::AfterEnd,
        });
    }
    match progress.reader.line(text) {
        Ok(item) => take_item(context, progress, &item),
        Err(_) => Err(Refuted {
            line: next,
            kind: RefutedKind::BadLine,
        }),
    }
}

/// Takes the `in` line of a node. It is never refused, as no row holds of it, and its tests look at nothing. Each
/// call has an item of its own, so that it is compiled for such a line alone.
#[inline(always)]
fn take_member(context: &Context, progress: &mut CheckProgress, node: u32)
    requires context { IsContext context.now }
    requires node { node < length context.now.basin.now.nodes }
    requires so_far { HasItems context.now.basin.now context.now.series.now progress.old (line.Member node) }
    requires room { progress.old.read + 1 < 2 ^ 64 }
    ensures takes { (items : List Item) → IsRead context.now.basin.now context.now.series.now progress.old items
        (line.Member node) →
        TakesItem context.now.basin.now context.now.series.now progress.new items (line.Member node) (Ok tt) }
    ensures reader { progress.new.reader ≡ progress.old.reader }
    ensures audited { is_some progress.new.audit ≡ is_some progress.old.audit }
{
    take_audit(context, progress, &Item::Member { node });
    enter_node(context, &mut *progress.state, node);
    count(progress, &Item::Member { node });
}

/// Takes the next line as `take_line` does, and answers it, where some bytes begin with it and its line feed, and it is
/// the `in` line that is most likely to come. Else nothing changes.
#[inline(always)]
pub fn take_likely<'a>(
    context: &Context,
    progress: &mut CheckProgress,
    piece: &'a [u8],
) -> Option<&'a [u8]>
    requires context { IsContext context.now }
    requires lines { HasLines context.now.basin.now context.now.series.now progress.old }
    ensures stands { IfSome result (λ text. (lines : List (List ℕ)) →
        IsProgressOf context.now.basin.now context.now.series.now progress.old lines →
        IsProgressOf context.now.basin.now context.now.series.now progress.new (lines ++ text.now ∷ [])) }
    ensures takes { IfSome result (λ text. TakesToFeed [] text.now piece.now (length text.now + 1)) }
    ensures none { IfNone result (progress.new ≡ progress.old) }
    ensures left { IfSome result (λ text. progress.new.reader.left + 1 ≡ progress.old.reader.left) }
    ensures audited { is_some progress.new.audit ≡ is_some progress.old.audit }
{
    if progress.ended {
        return None;
    }
    match progress.reader.likely_member(piece) {
        Some(member) => {
            take_member(context, progress, member.node);
            Some(member.text)
        }
        None => None,
    }
}
