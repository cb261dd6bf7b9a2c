// The program for debug packages.
ghost use Rattle.std.specs.Prelude.{◌≡◌, ◌≢◌, ◌≤◌, ◌<◌, ◌⊎◌, ◌++◌, ℕ, List, IfSome, IfNone, IsSome, IsSomeAnd, IsNone, MatchOption, Some, option_map, codes};
ghost use Rattle.std.specs.Option.{ForSome};
ghost use Rattle.dw_base.specs.Classes.{packaged};
ghost use Rattle.dw_base.specs.Host.{Rose, AddsPart};
ghost use Rattle.value_links.specs.Same.{Same};
ghost use Rattle.written_files.specs.Placed.{IsPlaced};
ghost use Rattle.written_files.specs.Classes.{HaveLeastCodes, HaveOrderedCodes, HaveLeastColumns, HaveFirstColumns, HaveLeastLists};
ghost use Rattle.written_files.specs.Tidy.{IsTidy};
ghost use Rattle.written_files.specs.Certificates.{IsCertificate, IsFirstCertificate};
ghost use Rattle.verdict.specs.Accepts.{Accepts, IsAllLeast, IsAllKept};
ghost use Rattle.commands.specs.File.{IsValid, IsValidOutput, StaysValid, HasLeastLines, HasLeastLayouts, IsWhole, IsDrawn};
ghost use Rattle.commands.specs.Words.{asked, input_of, IsInput, IsOutput, OfShrink, OfCheck, OfStat, OfMake};
ghost use Rattle.commands.specs.Run.{Writes, Certifies, WritesAccepted, WritesOut, IsUntouched, OfBothFiles, OfFiles, FailsToRead, FailsToWrite, ReadsWell, WritesWell, ReadsValid, HasFault};
ghost use Rattle.commands.specs.Said.{SaysRefusal, SaysLong, SaysRejection, SaysDone, StopsSaying};

use crate::running::run_in;
use dw_base::{Classes, Host};
use std::alloc::Global;

/// Does what [`run`](crate::run) does, for debug packages: .debug_line of OUT and the entries of its lists are those of IN, and no column has a form
/// that these classes leave out, which docs/CLASSES.md tells. The words and the statuses are the same. Its certificates are of a kind of their
/// own, so that `check` takes what `shrink` of this call wrote, and not what that of `run` did.
pub fn run_packaged<H: Host>(alloc: Global, words: &Vec<String>, host: &mut H) -> u8
    ensures known { (result ≤ 7) × (result ≢ 1) }
    ensures words { result ≡ 2 → IsNone (asked words.now.items) }
    ensures wrong { IfNone (asked words.now.items) ((result ≡ 2) ⊎ ((result ≡ 5) ⊎ (result ≡ 6))) }
    ensures words_said { result ≡ 2 → H.said host.new ≡ option_map (λ b. b ++ codes "words\n") (H.said host.old) }
    ensures wrong_reads { IfNone (asked words.now.items) ((f : List ℕ) → H.read_faults host.new f ≡ H.read_faults host.old f) }
    ensures wrong_writes { IfNone (asked words.now.items) ((f : List ℕ) → H.write_faults host.new f ≡ H.write_faults host.old f) }
    ensures refused { result ≡ 3 → IsSomeAnd (asked words.now.items) (SaysRefusal (H.bytes host.old) (H.said host.old) (H.said host.new)) }
    ensures long { result ≡ 3 → IsSomeAnd (asked words.now.items) (SaysLong (H.bytes host.old) (H.said host.old) (H.said host.new)) }
    ensures read_fault { result ≡ 4 → IsSomeAnd (asked words.now.items) (FailsToRead (H.read_faults host.old) (H.read_faults host.new)) }
    ensures read_rose { IfSome (asked words.now.items) (λ c. (f : List ℕ) → IsInput c f → H.read_faults host.old f < H.read_faults host.new f → result ≡ 4) }
    ensures write_fault { result ≡ 5 → MatchOption (asked words.now.items) (Rose (H.say_faults host.old) (H.say_faults host.new)) (λ c. FailsToWrite (H.write_faults host.old) (H.write_faults host.new) (Rose (H.say_faults host.old) (H.say_faults host.new)) (H.bytes host.old) c) }
    ensures write_rose { IfSome (asked words.now.items) (λ c. (f : List ℕ) → IsOutput c f → H.write_faults host.old f < H.write_faults host.new f → result ≡ 5) }
    ensures say_rose { H.say_faults host.old < H.say_faults host.new → result ≡ 5 }
    ensures kept { (result ≡ 2) ⊎ ((result ≡ 3) ⊎ (result ≡ 4)) → (f : List ℕ) → H.bytes host.new f ≡ H.bytes host.old f }
    ensures faulty_kept { IfSome (asked words.now.items) (λ c. IfSome (input_of c) (λ input. (file : List ℕ) → H.bytes host.old input ≡ Some file → ¬ IsValid file → (f : List ℕ) → H.bytes host.new f ≡ H.bytes host.old f)) }
    ensures faulty_unwritten { IfSome (asked words.now.items) (λ c. IfSome (input_of c) (λ input. (file : List ℕ) → H.bytes host.old input ≡ Some file → ¬ IsValid file → (f : List ℕ) → H.write_faults host.new f ≡ H.write_faults host.old f)) }
    ensures others { MatchOption (asked words.now.items) ((f : List ℕ) → H.bytes host.new f ≡ H.bytes host.old f) (λ c. (f : List ℕ) → ¬ IsOutput c f → H.bytes host.new f ≡ H.bytes host.old f) }
    ensures checked_kept { IfSome (asked words.now.items) (OfCheck (λ _. (f : List ℕ) → H.bytes host.new f ≡ H.bytes host.old f)) }
    ensures checked_unwritten { IfSome (asked words.now.items) (OfCheck (λ _. (f : List ℕ) → H.write_faults host.new f ≡ H.write_faults host.old f)) }
    ensures stat_unwritten { IfSome (asked words.now.items) (OfStat (λ input. (f : List ℕ) → H.write_faults host.new f ≡ H.write_faults host.old f)) }
    ensures done { result ≡ 0 → IsSomeAnd (asked words.now.items) (λ c. IfSome (input_of c) (λ input. ForSome (H.bytes host.old input) IsValid)) }
    ensures same { result ≡ 0 → IsSomeAnd (asked words.now.items) (OfShrink (λ n. Writes Same (H.bytes host.old) (H.bytes host.new) n.input n.output)) }
    ensures still_valid { result ≡ 0 → IsSomeAnd (asked words.now.items) (OfShrink (λ n. Writes StaysValid (H.bytes host.old) (H.bytes host.new) n.input n.output)) }
    ensures least { result ≡ 0 → IsSomeAnd (asked words.now.items) (OfShrink (λ n. Writes (HasLeastLines packaged) (H.bytes host.old) (H.bytes host.new) n.input n.output)) }
    ensures lists { result ≡ 0 → IsSomeAnd (asked words.now.items) (OfShrink (λ n. Writes (HaveLeastLists packaged) (H.bytes host.old) (H.bytes host.new) n.input n.output)) }
    ensures columns { result ≡ 0 → IsSomeAnd (asked words.now.items) (OfShrink (λ n. Writes (HaveLeastColumns packaged) (H.bytes host.old) (H.bytes host.new) n.input n.output)) }
    ensures columns_order { result ≡ 0 → IsSomeAnd (asked words.now.items) (OfShrink (λ n. Writes (HaveFirstColumns packaged) (H.bytes host.old) (H.bytes host.new) n.input n.output)) }
    ensures codes { result ≡ 0 → IsSomeAnd (asked words.now.items) (OfShrink (λ n. Writes HaveLeastCodes (H.bytes host.old) (H.bytes host.new) n.input n.output)) }
    ensures codes_order { result ≡ 0 → IsSomeAnd (asked words.now.items) (OfShrink (λ n. Writes HaveOrderedCodes (H.bytes host.old) (H.bytes host.new) n.input n.output)) }
    ensures layouts { result ≡ 0 → IsSomeAnd (asked words.now.items) (OfShrink (λ n. Writes HasLeastLayouts (H.bytes host.old) (H.bytes host.new) n.input n.output)) }
    ensures tidy { result ≡ 0 → IsSomeAnd (asked words.now.items) (OfShrink (λ n. Writes IsTidy (H.bytes host.old) (H.bytes host.new) n.input n.output)) }
    ensures placed { result ≡ 0 → IsSomeAnd (asked words.now.items) (OfShrink (λ n. Writes IsPlaced (H.bytes host.old) (H.bytes host.new) n.input n.output)) }
    ensures certified { result ≡ 0 → IsSomeAnd (asked words.now.items) (OfShrink (λ n. Certifies (IsCertificate packaged) (H.bytes host.old) (H.bytes host.new) n.output n.certificate)) }
    ensures certified_first { result ≡ 0 → IsSomeAnd (asked words.now.items) (OfShrink (λ n. Certifies (IsFirstCertificate packaged) (H.bytes host.old) (H.bytes host.new) n.output n.certificate)) }
    ensures acceptable { result ≡ 0 → IsSomeAnd (asked words.now.items) (OfShrink (WritesAccepted packaged (H.bytes host.old) (H.bytes host.new))) }
    ensures certificate_later { IfSome (asked words.now.items) (OfShrink (λ n. IsSome (H.bytes host.old n.output) → H.write_faults host.old n.output < H.write_faults host.new n.output → H.bytes host.new n.certificate ≡ H.bytes host.old n.certificate)) }
    ensures output_whole { IfSome (asked words.now.items) (OfShrink (λ n. IsSome (H.bytes host.old n.certificate) → IsUntouched (H.bytes host.old) (H.bytes host.new) (H.write_faults host.old) (H.write_faults host.new) n.certificate ⊎ Writes (IsWhole packaged) (H.bytes host.old) (H.bytes host.new) n.input n.output)) }
    ensures done_output { result ≡ 0 → IsSomeAnd (asked words.now.items) (OfCheck (λ n. ForSome (H.bytes host.old n.output) IsValidOutput)) }
    ensures accepted { result ≡ 0 → IsSomeAnd (asked words.now.items) (OfCheck (OfFiles (Accepts packaged) (H.bytes host.old))) }
    ensures accepted_least { result ≡ 0 → IsSomeAnd (asked words.now.items) (OfCheck (λ n. ForSome (H.bytes host.old n.output) (IsAllLeast packaged))) }
    ensures accepted_kept { result ≡ 0 → IsSomeAnd (asked words.now.items) (OfCheck (OfBothFiles (IsAllKept packaged) (H.bytes host.old))) }
    ensures rejected { result ≡ 7 → IsSomeAnd (asked words.now.items) (SaysRejection packaged (H.bytes host.old) (H.said host.old) (H.said host.new)) }
    ensures drawn { result ≡ 0 → IsSomeAnd (asked words.now.items) (OfMake (λ d. WritesOut (IsDrawn d.number d.units) (H.bytes host.old) (H.bytes host.new) d.output)) }
    ensures drawn_unread { IfSome (asked words.now.items) (OfMake (λ d. (f : List ℕ) → H.read_faults host.new f ≡ H.read_faults host.old f)) }
    ensures drawn_unsaid { IfSome (asked words.now.items) (OfMake (λ d. H.say_faults host.new ≡ H.say_faults host.old)) }
    ensures summed { result ≡ 0 → IsSomeAnd (asked words.now.items) (SaysDone packaged (H.bytes host.old) (H.said host.old) (H.said host.new)) }
    ensures quiet { result ≡ 4 → H.said host.new ≡ H.said host.old }
    ensures stopped { (result ≡ 5) ⊎ (result ≡ 6) → MatchOption (asked words.now.items) (AddsPart (H.said host.old) (codes "words\n") (H.said host.new)) (StopsSaying packaged (H.bytes host.old) (H.said host.old) (H.said host.new)) }
    ensures complete { IfSome (asked words.now.items) (λ c. ReadsValid packaged (H.bytes host.old) c → ReadsWell (H.read_faults host.old) (H.read_faults host.new) c → WritesWell (H.write_faults host.old) (H.write_faults host.new) (Rose (H.say_faults host.old) (H.say_faults host.new)) c → (result ≡ 0) ⊎ (result ≡ 6)) }
    ensures refuses { IfSome (asked words.now.items) (λ c. HasFault (H.bytes host.old) c → ReadsWell (H.read_faults host.old) (H.read_faults host.new) c → (result ≡ 3) ⊎ ((result ≡ 5) ⊎ (result ≡ 6))) }
    ensures rejects { IfSome (asked words.now.items) (λ c. OfCheck (OfFiles (λ file written cert. IsValid file → IsValidOutput written → ¬ Accepts packaged file written cert → ReadsWell (H.read_faults host.old) (H.read_faults host.new) c → (result ≡ 7) ⊎ ((result ≡ 5) ⊎ (result ≡ 6))) (H.bytes host.old)) c) }
{
    run_in(alloc, Classes::packaged(), words, host)
}
