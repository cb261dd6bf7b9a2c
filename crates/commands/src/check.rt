// Whether a file was written anew as promised, which its certificate shows.
ghost use Rattle.std.specs.Prelude.{◌≡◌, ◌⊎◌, ℕ, List, IfOk, IfErr};
ghost use Rattle.dw_base.specs.declared.fault.Reach.TheVariants.{Narrow, Wide};
ghost use Rattle.dw_base.specs.Host.{Rose};
ghost use Rattle.elf_sections.specs.Faults.{file_limit};
ghost use Rattle.value_links.specs.World.{IsWorldOf};
ghost use Rattle.commands.specs.Run.{IsToldAs};
ghost use Rattle.commands.specs.inside.Run.{OnlyReadFault};
ghost use Rattle.commands.specs.inside.Check.{RefusesFor, IsFrontOf, IsAnswer, EndsCheck, status_of, line_of as line_of_answer};

use crate::ending::Ending;
use crate::reading::{INPUT_LIMIT, NO_LIMIT, OUTPUT_LIMIT, read_file};
use crate::rejection::rejection;
use crate::saying::{end, input_refusal, output_refusal, say};
use dw_base::{Classes, Fault, Host, Kind, NoMemory, Reach, Refusal};
use std::alloc::Global;
use value_links::{World, first_faults_decide};
use verdict::verdict;

/// What is answered to three files: a file, one that may have been written for it, and the certificate of this one.
#[derive(Drop)]
pub enum Answer {
    /// They are accepted.
    Accepted,
    /// One of the two files isn't valid, with the line that names its fault.
    Refused(String),
    /// Both are valid, and they aren't accepted, with the line that says why.
    Rejected(Vec<u8>),
}

impl Answer {
    // The status that goes with the answer.
    fn status(&self) -> u8
        ensures value { result ≡ status_of self.now }
        ensures among { (result ≡ 0) ⊎ ((result ≡ 3) ⊎ (result ≡ 7)) }
    {
        match self {
            Answer::Accepted => 0,
            Answer::Refused(_) => 3,
            Answer::Rejected(_) => 7,
        }
    }

    // The line that says it.
    fn line(&self) -> &[u8]
        ensures { result.now ≡ line_of_answer self.now }
    {
        match self {
            Answer::Accepted => b"accepted\n",
            Answer::Refused(line) => line.as_bytes(),
            Answer::Rejected(line) => line,
        }
    }
}

// The most bytes of a file.
fn limit_of(reach: Reach) -> usize
    ensures { result ≡ file_limit reach }
{
    match reach {
        Reach::Narrow => INPUT_LIMIT,
        Reach::Wide => OUTPUT_LIMIT,
    }
}

// What is read of a file. A longer one than may be is refused as Limit at 0, whatever its first bytes are.
fn read_world<'a>(alloc: Global, file: &'a [u8], reach: Reach) -> Result<World<'a>, Refusal>
    ensures world { IfOk result (λ world. IsWorldOf file.entry.now reach world) }
    ensures refused { IfErr result (RefusesFor file.entry.now reach) }
{
    // A law, which costs nothing: a fault of the first pass is one of the file.
    first_faults_decide();
    if file.len() > limit_of(reach) {
        return Err(Refusal::Refused(Fault {
            kind: Kind::Limit,
            place: 0,
        }));
    }
    World::read(alloc, file, reach)
}

// The answer to two files that are in order, and a certificate.
fn answer_for(
    alloc: Global,
    classes: Classes,
    before: &World<'_>,
    after: &World<'_>,
    certificate: &[u8],
) -> Result<Answer, NoMemory>
    requires before { IsWorldOf before.now.image Narrow before.now }
    requires after { IsWorldOf after.now.image Wide after.now }
    ensures { IfOk result (IsAnswer classes before.now.image after.now.image certificate.now) }
{
    match verdict(alloc, classes, before, after, certificate)? {
        None => Ok(Answer::Accepted),
        Some(reason) => Ok(Answer::Rejected(rejection(alloc, before.image(), reason)?)),
    }
}

// The answer to the bytes of a file that may have been written for one that is in order.
fn judge_written(
    alloc: Global,
    classes: Classes,
    before: &World<'_>,
    written: &[u8],
    certificate: &[u8],
) -> Result<Answer, NoMemory>
    requires { IsWorldOf before.now.image Narrow before.now }
    ensures { IfOk result (IsAnswer classes before.now.image written.now certificate.now) }
{
    match read_world(alloc, written, Reach::Wide) {
        Ok(after) => answer_for(alloc, classes, before, &after, certificate),
        Err(Refusal::Refused(fault)) => Ok(Answer::Refused(output_refusal(alloc, fault)?)),
        Err(Refusal::NoMemory) => Err(NoMemory),
    }
}

// The answer to the bytes of three files. Faults of the first are looked for before those of the second.
fn judge(
    alloc: Global,
    classes: Classes,
    file: &[u8],
    written: &[u8],
    certificate: &[u8],
) -> Result<Answer, NoMemory>
    ensures { IfOk result (IsAnswer classes file.now written.now certificate.now) }
{
    match read_world(alloc, file, Reach::Narrow) {
        Ok(before) => judge_written(alloc, classes, &before, written, certificate),
        Err(Refusal::Refused(fault)) => Ok(Answer::Refused(input_refusal(alloc, fault)?)),
        Err(Refusal::NoMemory) => Err(NoMemory),
    }
}

// Reads the three files, in their order, and answers what they come to.
fn examine<H: Host>(
    alloc: Global,
    classes: Classes,
    input: &str,
    output: &str,
    certificate: &str,
    host: &mut H,
) -> Result<Answer, Ending>
    ensures answer { IfOk result (λ answer. (file written cert : List ℕ) × IsFrontOf Narrow (H.bytes host.old input.now) file × IsFrontOf Wide (H.bytes host.old output.now) written × IsToldAs (H.bytes host.old certificate.now) cert × IsAnswer classes file written cert answer) }
    ensures files { (f : List ℕ) → H.bytes host.new f ≡ H.bytes host.old f }
    ensures said { H.said host.new ≡ H.said host.old }
    ensures reads { OnlyReadFault (Rose (H.read_faults host.old input.now) (H.read_faults host.new input.now) ⊎ (Rose (H.read_faults host.old output.now) (H.read_faults host.new output.now) ⊎ Rose (H.read_faults host.old certificate.now) (H.read_faults host.new certificate.now))) (H.read_faults host.old) (H.read_faults host.new) result }
    ensures writes { (f : List ℕ) → H.write_faults host.new f ≡ H.write_faults host.old f }
    ensures says { H.say_faults host.new ≡ H.say_faults host.old }
{
    let file = read_file(alloc, input, INPUT_LIMIT, host)?;
    let written = read_file(alloc, output, OUTPUT_LIMIT, host)?;
    let cert = read_file(alloc, certificate, NO_LIMIT, host)?;
    Ok(judge(alloc, classes, &file, &written, &cert)?)
}

/// Reads the three files, and says whether the second is accepted as written for the first, with the third as its certificate, in some classes. No file is
/// written.
pub fn check<H: Host>(
    alloc: Global,
    classes: Classes,
    input: &str,
    output: &str,
    certificate: &str,
    host: &mut H,
) -> u8
    ensures ends { EndsCheck classes (H.bytes host.old) (record { input = input.now; output = output.now; certificate = certificate.now }) (H.said host.old) (H.said host.new) (H.read_faults host.old) (H.read_faults host.new) (H.say_faults host.old) (H.say_faults host.new) result }
    ensures files { (f : List ℕ) → H.bytes host.new f ≡ H.bytes host.old f }
    ensures writes { (f : List ℕ) → H.write_faults host.new f ≡ H.write_faults host.old f }
{
    // A law, which costs nothing: a fault of the first pass is one of the file.
    first_faults_decide();
    match examine(alloc, classes, input, output, certificate, host) {
        Ok(answer) => say(host, answer.line(), answer.status()),
        Err(ending) => end(alloc, ending, host),
    }
}
