// The program's work: what its words ask for, with its status.
ghost use Rattle.std.specs.Prelude.{◌≡◌, ◌≢◌, ◌≤◌, ◌<◌, ◌⊎◌, ◌++◌, ℕ, List, IfSome, IfNone, IsSome, IsSomeAnd, IsNone, MatchOption, Some, option_map, codes};
ghost use Rattle.std.specs.Option.{ForSome};
ghost use Rattle.dw_base.specs.Classes.{every};
ghost use Rattle.dw_base.specs.Host.{Rose, AddsPart};
ghost use Rattle.value_links.specs.Same.{Same};
ghost use Rattle.written_files.specs.Placed.{IsPlaced};
ghost use Rattle.written_files.specs.Classes.{HaveLeastCodes, HaveOrderedCodes, HaveLeastColumns, HaveFirstColumns, HaveLeastLists};
ghost use Rattle.written_files.specs.Tidy.{IsTidy};
ghost use Rattle.written_files.specs.Certificates.{IsCertificate, IsFirstCertificate};
ghost use Rattle.verdict.specs.Accepts.{Accepts, IsAllLeast, IsAllKept};
ghost use Rattle.commands.specs.File.{IsValid, IsValidOutput, StaysValid, HasLeastLines, HasOrderedLines, HasLeastLayouts, IsWhole, IsDrawn};
ghost use Rattle.commands.specs.Words.{asked, input_of, IsInput, IsOutput, OfShrink, OfCheck, OfStat, OfMake};
ghost use Rattle.commands.specs.Run.{Writes, Certifies, WritesAccepted, WritesOut, IsUntouched, OfBothFiles, OfFiles, FailsToRead, FailsToWrite, ReadsWell, WritesWell, ReadsValid, HasFault};
ghost use Rattle.commands.specs.Said.{SaysRefusal, SaysLong, SaysRejection, SaysDone, StopsSaying};

use crate::check::check;
use crate::make::make;
use crate::saying::{end, say};
use crate::shrink::shrink;
use crate::summary::summarise;
use crate::words::{Command, command_of};
use dw_base::{Classes, Host};
use std::alloc::Global;

/// Does what [`run`] does, in some classes: what is written is least in them, its certificate is one for them, and `check` asks for them.
/// In the classes for debug packages, .debug_line and the entries of lists are those of IN.
pub fn run_in<H: Host>(alloc: Global, classes: Classes, words: &Vec<String>, host: &mut H) -> u8
    ensures known { (result ≤ 7) × (result ≢ 1) }

    // Wrong words are the answer exactly there, but for a message that fails.
    ensures words { result ≡ 2 → IsNone (asked words.now.items) }
    ensures wrong { IfNone (asked words.now.items) ((result ≡ 2) ⊎ ((result ≡ 5) ⊎ (result ≡ 6))) }
    ensures words_said { result ≡ 2 → H.said host.new ≡ option_map (λ b. b ++ codes "words\n") (H.said host.old) }

    // With wrong words nothing is asked of the host but to say so.
    ensures wrong_reads { IfNone (asked words.now.items) ((f : List ℕ) → H.read_faults host.new f ≡ H.read_faults host.old f) }
    ensures wrong_writes { IfNone (asked words.now.items) ((f : List ℕ) → H.write_faults host.new f ≡ H.write_faults host.old f) }

    // A refusal names a fault of a file that is read.
    ensures refused { result ≡ 3 → IsSomeAnd (asked words.now.items) (SaysRefusal (H.bytes host.old) (H.said host.old) (H.said host.new)) }

    // A file that is longer than its limit is refused for that, whatever its first bytes are.
    ensures long { result ≡ 3 → IsSomeAnd (asked words.now.items) (SaysLong (H.bytes host.old) (H.said host.old) (H.said host.new)) }

    // A read fault comes where the count of a file that is read rose, and wherever one rose.
    ensures read_fault { result ≡ 4 → IsSomeAnd (asked words.now.items) (FailsToRead (H.read_faults host.old) (H.read_faults host.new)) }
    ensures read_rose { IfSome (asked words.now.items) (λ c. (f : List ℕ) → IsInput c f → H.read_faults host.old f < H.read_faults host.new f → result ≡ 4) }

    // A write fault comes where the count of a file that is written rose, or that of messages where there was one to say.
    ensures write_fault { result ≡ 5 → MatchOption (asked words.now.items) (Rose (H.say_faults host.old) (H.say_faults host.new)) (λ c. FailsToWrite (H.write_faults host.old) (H.write_faults host.new) (Rose (H.say_faults host.old) (H.say_faults host.new)) (H.bytes host.old) c) }
    ensures write_rose { IfSome (asked words.now.items) (λ c. (f : List ℕ) → IsOutput c f → H.write_faults host.old f < H.write_faults host.new f → result ≡ 5) }
    ensures say_rose { H.say_faults host.old < H.say_faults host.new → result ≡ 5 }

    // Which files may differ: none after wrong words, a refusal and a read fault, nor where the input has a fault, since
    // its faults are looked for before the first write; and never another than those that are to be written.
    ensures kept { (result ≡ 2) ⊎ ((result ≡ 3) ⊎ (result ≡ 4)) → (f : List ℕ) → H.bytes host.new f ≡ H.bytes host.old f }
    ensures faulty_kept { IfSome (asked words.now.items) (λ c. IfSome (input_of c) (λ input. (file : List ℕ) → H.bytes host.old input ≡ Some file → ¬ IsValid file → (f : List ℕ) → H.bytes host.new f ≡ H.bytes host.old f)) }
    ensures faulty_unwritten { IfSome (asked words.now.items) (λ c. IfSome (input_of c) (λ input. (file : List ℕ) → H.bytes host.old input ≡ Some file → ¬ IsValid file → (f : List ℕ) → H.write_faults host.new f ≡ H.write_faults host.old f)) }
    ensures others { MatchOption (asked words.now.items) ((f : List ℕ) → H.bytes host.new f ≡ H.bytes host.old f) (λ c. (f : List ℕ) → ¬ IsOutput c f → H.bytes host.new f ≡ H.bytes host.old f) }
    ensures checked_kept { IfSome (asked words.now.items) (OfCheck (λ _. (f : List ℕ) → H.bytes host.new f ≡ H.bytes host.old f)) }
    ensures checked_unwritten { IfSome (asked words.now.items) (OfCheck (λ _. (f : List ℕ) → H.write_faults host.new f ≡ H.write_faults host.old f)) }
    ensures stat_unwritten { IfSome (asked words.now.items) (OfStat (λ input. (f : List ℕ) → H.write_faults host.new f ≡ H.write_faults host.old f)) }

    // The work was done.
    ensures done { result ≡ 0 → IsSomeAnd (asked words.now.items) (λ c. IfSome (input_of c) (λ input. ForSome (H.bytes host.old input) IsValid)) }
    ensures same { result ≡ 0 → IsSomeAnd (asked words.now.items) (OfShrink (λ n. Writes Same (H.bytes host.old) (H.bytes host.new) n.input n.output)) }
    ensures still_valid { result ≡ 0 → IsSomeAnd (asked words.now.items) (OfShrink (λ n. Writes StaysValid (H.bytes host.old) (H.bytes host.new) n.input n.output)) }
    ensures least { result ≡ 0 → IsSomeAnd (asked words.now.items) (OfShrink (λ n. Writes (HasLeastLines classes) (H.bytes host.old) (H.bytes host.new) n.input n.output)) }
    ensures order { result ≡ 0 → IsSomeAnd (asked words.now.items) (OfShrink (λ n. Writes (HasOrderedLines classes) (H.bytes host.old) (H.bytes host.new) n.input n.output)) }
    ensures lists { result ≡ 0 → IsSomeAnd (asked words.now.items) (OfShrink (λ n. Writes (HaveLeastLists classes) (H.bytes host.old) (H.bytes host.new) n.input n.output)) }
    ensures columns { result ≡ 0 → IsSomeAnd (asked words.now.items) (OfShrink (λ n. Writes (HaveLeastColumns classes) (H.bytes host.old) (H.bytes host.new) n.input n.output)) }
    ensures columns_order { result ≡ 0 → IsSomeAnd (asked words.now.items) (OfShrink (λ n. Writes (HaveFirstColumns classes) (H.bytes host.old) (H.bytes host.new) n.input n.output)) }
    ensures codes { result ≡ 0 → IsSomeAnd (asked words.now.items) (OfShrink (λ n. Writes HaveLeastCodes (H.bytes host.old) (H.bytes host.new) n.input n.output)) }
    ensures codes_order { result ≡ 0 → IsSomeAnd (asked words.now.items) (OfShrink (λ n. Writes HaveOrderedCodes (H.bytes host.old) (H.bytes host.new) n.input n.output)) }
    ensures layouts { result ≡ 0 → IsSomeAnd (asked words.now.items) (OfShrink (λ n. Writes HasLeastLayouts (H.bytes host.old) (H.bytes host.new) n.input n.output)) }
    ensures tidy { result ≡ 0 → IsSomeAnd (asked words.now.items) (OfShrink (λ n. Writes IsTidy (H.bytes host.old) (H.bytes host.new) n.input n.output)) }
    ensures placed { result ≡ 0 → IsSomeAnd (asked words.now.items) (OfShrink (λ n. Writes IsPlaced (H.bytes host.old) (H.bytes host.new) n.input n.output)) }
    ensures certified { result ≡ 0 → IsSomeAnd (asked words.now.items) (OfShrink (λ n. Certifies (IsCertificate classes) (H.bytes host.old) (H.bytes host.new) n.output n.certificate)) }
    ensures certified_first { result ≡ 0 → IsSomeAnd (asked words.now.items) (OfShrink (λ n. Certifies (IsFirstCertificate classes) (H.bytes host.old) (H.bytes host.new) n.output n.certificate)) }

    // What is written is accepted: where all three files are told, `check` of the same names has nothing to reject.
    ensures acceptable { result ≡ 0 → IsSomeAnd (asked words.now.items) (OfShrink (WritesAccepted classes (H.bytes host.old) (H.bytes host.new))) }

    // The certificate isn't begun before the output is whole, which then stays. A host that doesn't tell a file may count a
    // failed write of another one for it too.
    ensures certificate_later { IfSome (asked words.now.items) (OfShrink (λ n. IsSome (H.bytes host.old n.output) → H.write_faults host.old n.output < H.write_faults host.new n.output → H.bytes host.new n.certificate ≡ H.bytes host.old n.certificate)) }
    ensures output_whole { IfSome (asked words.now.items) (OfShrink (λ n. IsSome (H.bytes host.old n.certificate) → IsUntouched (H.bytes host.old) (H.bytes host.new) (H.write_faults host.old) (H.write_faults host.new) n.certificate ⊎ Writes (IsWhole classes) (H.bytes host.old) (H.bytes host.new) n.input n.output)) }

    // Three files that were checked. They are accepted exactly where they are to be, and else the first reason is said why they aren't.
    ensures done_output { result ≡ 0 → IsSomeAnd (asked words.now.items) (OfCheck (λ n. ForSome (H.bytes host.old n.output) IsValidOutput)) }
    ensures accepted { result ≡ 0 → IsSomeAnd (asked words.now.items) (OfCheck (OfFiles (Accepts classes) (H.bytes host.old))) }
    ensures accepted_least { result ≡ 0 → IsSomeAnd (asked words.now.items) (OfCheck (λ n. ForSome (H.bytes host.old n.output) (IsAllLeast classes))) }
    ensures accepted_kept { result ≡ 0 → IsSomeAnd (asked words.now.items) (OfCheck (OfBothFiles (IsAllKept classes) (H.bytes host.old))) }
    ensures rejected { result ≡ 7 → IsSomeAnd (asked words.now.items) (SaysRejection classes (H.bytes host.old) (H.said host.old) (H.said host.new)) }

    // A file that is drawn. Nothing else is asked of the host than to write it.
    ensures drawn { result ≡ 0 → IsSomeAnd (asked words.now.items) (OfMake (λ d. WritesOut (IsDrawn d.number d.units) (H.bytes host.old) (H.bytes host.new) d.output)) }
    ensures drawn_unread { IfSome (asked words.now.items) (OfMake (λ d. (f : List ℕ) → H.read_faults host.new f ≡ H.read_faults host.old f)) }
    ensures drawn_unsaid { IfSome (asked words.now.items) (OfMake (λ d. H.say_faults host.new ≡ H.say_faults host.old)) }

    // What was said: the line that sums up or accepts where one is asked for, else nothing after the work and after a read fault, and in
    // place of another answer some front of what that answer says.
    ensures summed { result ≡ 0 → IsSomeAnd (asked words.now.items) (SaysDone classes (H.bytes host.old) (H.said host.old) (H.said host.new)) }
    ensures quiet { result ≡ 4 → H.said host.new ≡ H.said host.old }
    ensures stopped { (result ≡ 5) ⊎ (result ≡ 6) → MatchOption (asked words.now.items) (AddsPart (H.said host.old) (codes "words\n") (H.said host.new)) (StopsSaying classes (H.bytes host.old) (H.said host.old) (H.said host.new)) }

    // Where no count rose, the work is done, unless a file is faulty, which is refused, or three files aren't to be accepted, which are
    // rejected, but for want of memory.
    ensures complete { IfSome (asked words.now.items) (λ c. ReadsValid classes (H.bytes host.old) c → ReadsWell (H.read_faults host.old) (H.read_faults host.new) c → WritesWell (H.write_faults host.old) (H.write_faults host.new) (Rose (H.say_faults host.old) (H.say_faults host.new)) c → (result ≡ 0) ⊎ (result ≡ 6)) }
    ensures refuses { IfSome (asked words.now.items) (λ c. HasFault (H.bytes host.old) c → ReadsWell (H.read_faults host.old) (H.read_faults host.new) c → (result ≡ 3) ⊎ ((result ≡ 5) ⊎ (result ≡ 6))) }
    ensures rejects { IfSome (asked words.now.items) (λ c. OfCheck (OfFiles (λ file written cert. IsValid file → IsValidOutput written → ¬ Accepts classes file written cert → ReadsWell (H.read_faults host.old) (H.read_faults host.new) c → (result ≡ 7) ⊎ ((result ≡ 5) ⊎ (result ≡ 6))) (H.bytes host.old)) c) }
{
    let Some(command) = command_of(words) else {
        return say(host, b"words\n", 2);
    };
    match command {
        Command::Shrink(names) => {
            match shrink(
                alloc,
                classes,
                names.input,
                names.output,
                names.certificate,
                host,
            ) {
                Ok(()) => 0,
                Err(ending) => end(alloc, ending, host),
            }
        }
        Command::Check(names) => {
            check(
                alloc,
                classes,
                names.input,
                names.output,
                names.certificate,
                host,
            )
        }
        Command::Stat(input) => match summarise(alloc, classes, input, host) {
            Ok(line) => say(host, line.as_bytes(), 0),
            Err(ending) => end(alloc, ending, host),
        },
        Command::Make(drawing) => {
            match make(alloc, drawing.number, drawing.units, drawing.output, host) {
                Ok(()) => 0,
                Err(ending) => end(alloc, ending, host),
            }
        }
    }
}

/// Does what the words ask for, and answers the program's status. `shrink IN OUT CERT`, with three different names, writes a file anew;
/// `check IN OUT CERT`, with three such names, says whether OUT was written so for IN, which CERT shows, and writes nothing; `stat IN` says
/// what that would win, and writes nothing; `make NUMBER UNITS OUT` writes a valid file that is drawn from a number of 0 to 2^32 - 1, with 1
/// to 4,096 units.
///
/// - 0: of `shrink`, OUT was written. It means the same as IN and is least in the classes that docs/CLASSES.md tells. CERT was written too:
///   the certificate that shows so, as docs/CERTIFICATE.md tells. `check` of the same three names accepts both. Of `check`, `accepted` was said:
///   all this holds of OUT and CERT. Of `stat`, one line of JSON was said: the bytes of the sections .debug_abbrev, .debug_info, .debug_line,
///   .debug_loclists and .debug_rnglists in IN and in such an OUT, and how many entries, rows of line number programs and units IN has. Of
///   `make`, OUT was written, and means what docs/FORMATS.md draws from the number.
/// - 2: the words are others. `words` is said, and nothing else is done.
/// - 3: IN isn't valid, and a fault of it is said: `refused KIND at PLACE`, where the place counts from the file's first byte. Of `check`,
///   `refused in KIND at PLACE` is said, or, where IN is valid and OUT isn't, `refused out KIND at PLACE`.
/// - 4: a call failed that reads IN, or, of `check`, OUT or CERT.
/// - 5: a call failed that writes OUT or CERT, or one that says a message.
/// - 6: memory was wanting.
/// - 7: of `check`, IN and OUT are valid, and the first reason is said why OUT isn't accepted with CERT: `rejected REASON`.
///
/// No file but OUT and CERT differs afterwards; of `check` and under 2, 3 and 4 none does. CERT is begun once OUT is whole; where writing it
/// fails OUT stays. docs/PROMISES.md goes through the clauses.
pub fn run<H: Host>(alloc: Global, words: &Vec<String>, host: &mut H) -> u8
    ensures known { (result ≤ 7) × (result ≢ 1) }
    ensures words { result ≡ 2 → IsNone (asked words.now.items) }
    ensures wrong { IfNone (asked words.now.items) ((result ≡ 2) ⊎ ((result ≡ 5) ⊎ (result ≡ 6))) }
    ensures words_said { result ≡ 2 → H.said host.new ≡ option_map (λ b. b ++ codes "words\n") (H.said host.old) }
    ensures wrong_reads { IfNone (asked words.now.items) ((f : List ℕ) → H.read_faults host.new f ≡ H.read_faults host.old f) }
    ensures wrong_writes { IfNone (asked words.now.items) ((f : List ℕ) → H.write_faults host.new f ≡ H.write_faults host.old f) }
    ensures refused { result ≡ 3 → IsSomeAnd (asked words.now.items) (SaysRefusal (H.bytes host.old) (H.said host.old) (H.said host.new)) }
    ensures long { result ≡ 3 → IsSomeAnd (asked words.now.items) (SaysLong (H.bytes host.old) (H.said host.old) (H.said host.new)) }
    ensures read_fault { result ≡ 4 → IsSomeAnd (asked words.now.items) (FailsToRead (H.read_faults host.old) (H.read_faults host.new)) }
    ensures read_rose { IfSome (asked words.now.items) (λ c. (f : List ℕ) → IsInput c f → H.read_faults host.old f < H.read_faults host.new f → result ≡ 4) }
    ensures write_fault { result ≡ 5 → MatchOption (asked words.now.items) (Rose (H.say_faults host.old) (H.say_faults host.new)) (λ c. FailsToWrite (H.write_faults host.old) (H.write_faults host.new) (Rose (H.say_faults host.old) (H.say_faults host.new)) (H.bytes host.old) c) }
    ensures write_rose { IfSome (asked words.now.items) (λ c. (f : List ℕ) → IsOutput c f → H.write_faults host.old f < H.write_faults host.new f → result ≡ 5) }
    ensures say_rose { H.say_faults host.old < H.say_faults host.new → result ≡ 5 }
    ensures kept { (result ≡ 2) ⊎ ((result ≡ 3) ⊎ (result ≡ 4)) → (f : List ℕ) → H.bytes host.new f ≡ H.bytes host.old f }
    ensures faulty_kept { IfSome (asked words.now.items) (λ c. IfSome (input_of c) (λ input. (file : List ℕ) → H.bytes host.old input ≡ Some file → ¬ IsValid file → (f : List ℕ) → H.bytes host.new f ≡ H.bytes host.old f)) }
    ensures faulty_unwritten { IfSome (asked words.now.items) (λ c. IfSome (input_of c) (λ input. (file : List ℕ) → H.bytes host.old input ≡ Some file → ¬ IsValid file → (f : List ℕ) → H.write_faults host.new f ≡ H.write_faults host.old f)) }
    ensures others { MatchOption (asked words.now.items) ((f : List ℕ) → H.bytes host.new f ≡ H.bytes host.old f) (λ c. (f : List ℕ) → ¬ IsOutput c f → H.bytes host.new f ≡ H.bytes host.old f) }
    ensures checked_kept { IfSome (asked words.now.items) (OfCheck (λ _. (f : List ℕ) → H.bytes host.new f ≡ H.bytes host.old f)) }
    ensures checked_unwritten { IfSome (asked words.now.items) (OfCheck (λ _. (f : List ℕ) → H.write_faults host.new f ≡ H.write_faults host.old f)) }
    ensures stat_unwritten { IfSome (asked words.now.items) (OfStat (λ input. (f : List ℕ) → H.write_faults host.new f ≡ H.write_faults host.old f)) }
    ensures done { result ≡ 0 → IsSomeAnd (asked words.now.items) (λ c. IfSome (input_of c) (λ input. ForSome (H.bytes host.old input) IsValid)) }
    ensures same { result ≡ 0 → IsSomeAnd (asked words.now.items) (OfShrink (λ n. Writes Same (H.bytes host.old) (H.bytes host.new) n.input n.output)) }
    ensures still_valid { result ≡ 0 → IsSomeAnd (asked words.now.items) (OfShrink (λ n. Writes StaysValid (H.bytes host.old) (H.bytes host.new) n.input n.output)) }
    ensures least { result ≡ 0 → IsSomeAnd (asked words.now.items) (OfShrink (λ n. Writes (HasLeastLines every) (H.bytes host.old) (H.bytes host.new) n.input n.output)) }
    ensures order { result ≡ 0 → IsSomeAnd (asked words.now.items) (OfShrink (λ n. Writes (HasOrderedLines every) (H.bytes host.old) (H.bytes host.new) n.input n.output)) }
    ensures lists { result ≡ 0 → IsSomeAnd (asked words.now.items) (OfShrink (λ n. Writes (HaveLeastLists every) (H.bytes host.old) (H.bytes host.new) n.input n.output)) }
    ensures columns { result ≡ 0 → IsSomeAnd (asked words.now.items) (OfShrink (λ n. Writes (HaveLeastColumns every) (H.bytes host.old) (H.bytes host.new) n.input n.output)) }
    ensures columns_order { result ≡ 0 → IsSomeAnd (asked words.now.items) (OfShrink (λ n. Writes (HaveFirstColumns every) (H.bytes host.old) (H.bytes host.new) n.input n.output)) }
    ensures codes { result ≡ 0 → IsSomeAnd (asked words.now.items) (OfShrink (λ n. Writes HaveLeastCodes (H.bytes host.old) (H.bytes host.new) n.input n.output)) }
    ensures codes_order { result ≡ 0 → IsSomeAnd (asked words.now.items) (OfShrink (λ n. Writes HaveOrderedCodes (H.bytes host.old) (H.bytes host.new) n.input n.output)) }
    ensures layouts { result ≡ 0 → IsSomeAnd (asked words.now.items) (OfShrink (λ n. Writes HasLeastLayouts (H.bytes host.old) (H.bytes host.new) n.input n.output)) }
    ensures tidy { result ≡ 0 → IsSomeAnd (asked words.now.items) (OfShrink (λ n. Writes IsTidy (H.bytes host.old) (H.bytes host.new) n.input n.output)) }
    ensures placed { result ≡ 0 → IsSomeAnd (asked words.now.items) (OfShrink (λ n. Writes IsPlaced (H.bytes host.old) (H.bytes host.new) n.input n.output)) }
    ensures certified { result ≡ 0 → IsSomeAnd (asked words.now.items) (OfShrink (λ n. Certifies (IsCertificate every) (H.bytes host.old) (H.bytes host.new) n.output n.certificate)) }
    ensures certified_first { result ≡ 0 → IsSomeAnd (asked words.now.items) (OfShrink (λ n. Certifies (IsFirstCertificate every) (H.bytes host.old) (H.bytes host.new) n.output n.certificate)) }
    ensures acceptable { result ≡ 0 → IsSomeAnd (asked words.now.items) (OfShrink (WritesAccepted every (H.bytes host.old) (H.bytes host.new))) }
    ensures certificate_later { IfSome (asked words.now.items) (OfShrink (λ n. IsSome (H.bytes host.old n.output) → H.write_faults host.old n.output < H.write_faults host.new n.output → H.bytes host.new n.certificate ≡ H.bytes host.old n.certificate)) }
    ensures output_whole { IfSome (asked words.now.items) (OfShrink (λ n. IsSome (H.bytes host.old n.certificate) → IsUntouched (H.bytes host.old) (H.bytes host.new) (H.write_faults host.old) (H.write_faults host.new) n.certificate ⊎ Writes (IsWhole every) (H.bytes host.old) (H.bytes host.new) n.input n.output)) }
    ensures done_output { result ≡ 0 → IsSomeAnd (asked words.now.items) (OfCheck (λ n. ForSome (H.bytes host.old n.output) IsValidOutput)) }
    ensures accepted { result ≡ 0 → IsSomeAnd (asked words.now.items) (OfCheck (OfFiles (Accepts every) (H.bytes host.old))) }
    ensures accepted_least { result ≡ 0 → IsSomeAnd (asked words.now.items) (OfCheck (λ n. ForSome (H.bytes host.old n.output) (IsAllLeast every))) }
    ensures rejected { result ≡ 7 → IsSomeAnd (asked words.now.items) (SaysRejection every (H.bytes host.old) (H.said host.old) (H.said host.new)) }
    ensures drawn { result ≡ 0 → IsSomeAnd (asked words.now.items) (OfMake (λ d. WritesOut (IsDrawn d.number d.units) (H.bytes host.old) (H.bytes host.new) d.output)) }
    ensures drawn_unread { IfSome (asked words.now.items) (OfMake (λ d. (f : List ℕ) → H.read_faults host.new f ≡ H.read_faults host.old f)) }
    ensures drawn_unsaid { IfSome (asked words.now.items) (OfMake (λ d. H.say_faults host.new ≡ H.say_faults host.old)) }
    ensures summed { result ≡ 0 → IsSomeAnd (asked words.now.items) (SaysDone every (H.bytes host.old) (H.said host.old) (H.said host.new)) }
    ensures quiet { result ≡ 4 → H.said host.new ≡ H.said host.old }
    ensures stopped { (result ≡ 5) ⊎ (result ≡ 6) → MatchOption (asked words.now.items) (AddsPart (H.said host.old) (codes "words\n") (H.said host.new)) (StopsSaying every (H.bytes host.old) (H.said host.old) (H.said host.new)) }
    ensures complete { IfSome (asked words.now.items) (λ c. ReadsValid every (H.bytes host.old) c → ReadsWell (H.read_faults host.old) (H.read_faults host.new) c → WritesWell (H.write_faults host.old) (H.write_faults host.new) (Rose (H.say_faults host.old) (H.say_faults host.new)) c → (result ≡ 0) ⊎ (result ≡ 6)) }
    ensures refuses { IfSome (asked words.now.items) (λ c. HasFault (H.bytes host.old) c → ReadsWell (H.read_faults host.old) (H.read_faults host.new) c → (result ≡ 3) ⊎ ((result ≡ 5) ⊎ (result ≡ 6))) }
    ensures rejects { IfSome (asked words.now.items) (λ c. OfCheck (OfFiles (λ file written cert. IsValid file → IsValidOutput written → ¬ Accepts every file written cert → ReadsWell (H.read_faults host.old) (H.read_faults host.new) c → (result ≡ 7) ⊎ ((result ≡ 5) ⊎ (result ≡ 6))) (H.bytes host.old)) c) }
{
    run_in(alloc, Classes::every(), words, host)
}
