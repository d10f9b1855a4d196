//! The line of a state: its words, each after a label.
ghost use Rattle.std.specs.Prelude.{◌≡◌, ◌≤◌, ◌++◌, length, codes, All, IfOk, OnOk};
ghost use Rattle.std.specs.Fmt.{decimal};
ghost use Rattle.std.specs.String.{string_bytes};
ghost use Rattle.lw_base.specs.Heads.{head_of};
ghost use Rattle.lw_base.specs.Limits.{most_threads};
ghost use Rattle.lw_base.specs.WellFormed.{IsSeenInRange};
ghost use Rattle.lw_report.specs.inner.Labels.{label, labels, labelled_words};
ghost use Rattle.lw_report.specs.Observed as specs;

use crate::projection::observed;
use lw_base::{Head, Seen, Sequence, Text, Word, reg_name};
use std::alloc::{AllocError, Allocator};

/// The text before each word of a state's line.
pub(crate) type Labels<A> = Sequence<Text<A>, A>;

/// Returns the labels of the observed names, as in `0:r0=`.
pub(crate) fn observed_labels<A: Allocator + Copy>(
    alloc: A,
    head: &Head<A>,
) -> Result<Labels<A>, AllocError>
    requires { head.now.threads ≤ most_threads }
    ensures { IfOk result (λ texts. texts ≡ labels (head_of head.now) (specs.observed (head_of head.now))) }
{
    let names = observed(alloc, head)?;
    let labels = labels_of(alloc, head, names.as_slice());
    drop(names);
    labels
}

/// Returns the labels of names. All except the first begin with a space.
fn labels_of<A: Allocator + Copy>(
    alloc: A,
    head: &Head<A>,
    names: &[Seen],
) -> Result<Labels<A>, AllocError>
    requires { All (IsSeenInRange head.now.threads (length head.now.locs)) names.now }
    ensures { IfOk result (λ texts. texts ≡ labels (head_of head.now) names.now) }
{
    let mut texts = Sequence::new(alloc);
    let mut before = "";
    for name in names {
        texts.push(label_of(alloc, head, before, *name)?)?;
        before = " ";
    }
    Ok(texts)
}

/// Returns the label of a name, after `before`: nothing for the first name of a line, and a space for the others.
fn label_of<A: Allocator>(
    alloc: A,
    head: &Head<A>,
    before: &str,
    name: Seen,
) -> Result<Text<A>, AllocError>
    requires { IsSeenInRange head.now.threads (length head.now.locs) name }
    ensures { IfOk result (λ text. text ≡ label (head_of head.now) before.now name) }
{
    let mut out = String::new(alloc);
    write_label(&mut out, head, before, name)?;
    Ok(Text::from(out))
}

/// Writes `before` and the label of a name: a thread's register, as in `0:r0`, or a location, and `=`.
fn write_label<A: Allocator>(
    out: &mut String<A>,
    head: &Head<A>,
    before: &str,
    name: Seen,
) -> Result<(), AllocError>
    requires { IsSeenInRange head.now.threads (length head.now.locs) name }
    ensures { OnOk result (string_bytes out.new ≡ string_bytes out.old ++ label (head_of head.now) before.now name) }
{
    match name {
        Seen::Register(cpu, reg) => {
            let register = reg_name(head.arch, reg);
            write!(out, "{}{}:{}=", before, cpu.index(), register)
        }
        Seen::Location(loc) => write!(out, "{}{}=", before, head.locs.name(loc)),
    }
}

/// Writes the line of a state: its words after their labels, of which there are as many, and the line's end.
pub(crate) fn write_state<A: Allocator>(
    out: &mut String<A>,
    labels: &[Text<A>],
    words: &[Word],
) -> Result<(), AllocError>
    ensures { OnOk result (string_bytes out.new
        ≡ string_bytes out.old ++ (labelled_words labels.now words.now ++ codes "\n")) }
{
    for index in 0..labels.len().min(words.len()) {
        out.push_str(labels[index].as_str())?;
        write_word(out, words[index])?;
    }
    out.push_str("\n")
}

/// Writes a word in decimal, and `;`. A word of one digit, as most are, is written without the formatter, which takes longer.
fn write_word<A: Allocator>(out: &mut String<A>, word: Word) -> Result<(), AllocError>
    ensures { OnOk result (string_bytes out.new ≡ string_bytes out.old ++ (decimal word ++ codes ";")) }
{
    if word < 10 {
        out.push((b'0' + word as u8) as char)?;
        return out.push(';');
    }
    write!(out, "{};", word)
}
