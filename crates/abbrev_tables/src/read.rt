// Declarations read.
ghost use Rattle.std.specs.Prelude.{◌≡◌, ◌≢◌, ◌≤◌, ◌<◌, ◌+◌, ◌^◌, ◌++◌, ◌∷◌, [], ℕ, length, take, IfOk, IfErr, OnOk};
ghost use Rattle.leb_codec.specs.Leb.{Uleb};
ghost use Rattle.abbrev_tables.specs.Tables.{SpellsName, SpellsConstant, SpellsChildren, SpellsColumns};
ghost use Rattle.abbrev_tables.specs.Faults.{FaultNumber, FaultName, FaultForm, FaultCode, FaultColumn, FaultColumns, FaultChildren, FaultFlagged, FaultTagged, FaultWithin, FaultDeclared};
ghost use Rattle.abbrev_tables.specs.inside.Readings.{IsReadForm, IsReadCode, IsReadStep, SpellsFlagged, SpellsTagged, HasColumns, IsReadDecl, IsStop};

use crate::decl::Spec;
use dw_base::constants::DW_FORM_IMPLICIT_CONST;
use dw_base::{Kind, NoMemory};
use form_codec::known;
use leb_codec::{LebFault, ReadS, ReadU, read_s, read_u};

const GREATEST_NAME: u64 = 0xffff_ffff;

/// A column, or the end of the columns.
#[derive(Clone, Copy)]
pub enum Step {
    Column(Spec),
    End,
}

/// A step, and where its bytes end.
#[derive(Clone, Copy)]
pub struct ReadStep {
    pub step: Step,
    pub end: usize,
}

/// A fault, and its place.
#[derive(Clone, Copy)]
pub struct FaultAt {
    pub kind: Kind,
    pub at: usize,
}

/// Why nothing is read.
#[derive(Clone, Copy)]
pub enum Stop {
    Fault(FaultAt),
    NoMemory,
}

impl From<NoMemory> for Stop {
    ghost use Rattle.abbrev_tables.specs.declared.read.Stop.TheVariants.{NoMemory};

    ghost from_gives = { λ _ e. e ≡ NoMemory };

    fn from(_: NoMemory) -> Self {
        Stop::NoMemory
    }
}

/// What a declaration has before its columns.
#[derive(Clone, Copy)]
pub struct Head {
    pub code: u64,
    pub tag: u64,
    pub children: bool,
}

/// A declaration, or none at the code 0, and where its bytes end.
#[derive(Clone, Copy)]
pub struct ReadDecl {
    pub head: Option<Head>,
    pub end: usize,
}

// A fault that counts from a place before.
pub(crate) fn fault_after(before: usize, fault: FaultAt) -> FaultAt
    requires { before + fault.at < 2 ^ 64 }
    ensures { result ≡ record { kind = fault.kind; at = before + fault.at } }
{
    FaultAt {
        kind: fault.kind,
        at: before + fault.at,
    }
}

// A number.
fn read_number(rest: &[u8]) -> Result<ReadU, Kind>
    ensures read { IfOk result (λ r. (r.end ≤ length rest.now) × Uleb r.value (take r.end rest.now)) }
    ensures fault { IfErr result (λ kind. FaultNumber kind 0 rest.now) }
{
    match read_u(rest, 0) {
        Ok(read) => Ok(read),
        Err(LebFault::Short) => Err(Kind::Short),
        Err(LebFault::Wide) => Err(Kind::LebWide),
    }
}

// A tag or a name.
fn read_name(rest: &[u8]) -> Result<ReadU, Kind>
    ensures read { IfOk result (λ r. (r.end ≤ length rest.now) × SpellsName r.value (take r.end rest.now)) }
    ensures fault { IfErr result (λ kind. FaultName kind 0 rest.now) }
{
    match read_number(rest) {
        Ok(read) => {
            if read.value > GREATEST_NAME {
                return Err(Kind::Limit);
            }
            Ok(read)
        }
        Err(kind) => Err(kind),
    }
}

// The constant of a column.
fn read_constant(form: u64, rest: &[u8]) -> Result<ReadS, Kind>
    ensures read { IfOk result (λ r. (r.end ≤ length rest.now) × SpellsConstant form r.value (take r.end rest.now)) }
    ensures fault { (name : ℕ) → name ≢ 0 → IfErr result (λ kind. FaultForm name form kind 0 rest.now) }
{
    if form != DW_FORM_IMPLICIT_CONST {
        return Ok(ReadS { value: 0, end: 0 });
    }
    match read_s(rest, 0) {
        Ok(read) => Ok(read),
        Err(LebFault::Short) => Err(Kind::Short),
        Err(LebFault::Wide) => Err(Kind::LebWide),
    }
}

// What follows a name and the code of a form.
fn read_form(name: u64, form: u64, rest: &[u8]) -> Result<ReadStep, Kind>
    ensures read { IfOk result (IsReadForm name form rest.now) }
    ensures fault { IfErr result (λ kind. FaultForm name form kind 0 rest.now) }
{
    if name == 0 && form == 0 {
        return Ok(ReadStep {
            step: Step::End,
            end: 0,
        });
    }
    if name == 0 || !known(form) {
        return Err(Kind::FormUnknown);
    }
    match read_constant(form, rest) {
        Ok(read) => Ok(ReadStep {
            step: Step::Column(Spec {
                name,
                form,
                constant: read.value,
            }),
            end: read.end,
        }),
        Err(kind) => Err(kind),
    }
}

// What follows a name.
fn read_code(name: u64, rest: &[u8]) -> Result<ReadStep, FaultAt>
    ensures read { IfOk result (IsReadCode name rest.now) }
    ensures within { IfErr result (λ f. f.at ≤ length rest.now) }
    ensures fault { IfErr result (λ f. FaultCode name f.kind f.at rest.now) }
{
    match read_number(rest) {
        Ok(code) => match read_form(name, code.value, &rest[code.end..]) {
            Ok(read) => Ok(ReadStep {
                step: read.step,
                end: code.end + read.end,
            }),
            Err(kind) => Err(FaultAt { kind, at: code.end }),
        },
        Err(kind) => Err(FaultAt { kind, at: 0 }),
    }
}

// A column or the end.
fn read_step(rest: &[u8]) -> Result<ReadStep, FaultAt>
    ensures read { IfOk result (IsReadStep rest.now) }
    ensures within { IfErr result (λ f. f.at ≤ length rest.now) }
    ensures fault { IfErr result (λ f. FaultColumn f.kind f.at rest.now) }
{
    match read_name(rest) {
        Ok(name) => match read_code(name.value, &rest[name.end..]) {
            Ok(read) => Ok(ReadStep {
                step: read.step,
                end: name.end + read.end,
            }),
            Err(fault) => Err(fault_after(name.end, fault)),
        },
        Err(kind) => Err(FaultAt { kind, at: 0 }),
    }
}

// Appends a column.
fn push(specs: &mut Vec<Spec>, column: Spec) -> Result<(), NoMemory>
    ensures { OnOk result (specs.new.items ≡ specs.old.items ++ column ∷ []) }
{
    specs.push(column)?;
    Ok(())
}

// Appends the columns up to their end, and gives the place after it.
fn read_columns(specs: &mut Vec<Spec>, rest: &[u8]) -> Result<usize, Stop>
    ensures read { IfOk result (λ end. (end ≤ length rest.now) × HasColumns SpellsColumns specs.old.items specs.new.items (take end rest.now)) }
    ensures fault { IfErr result (IsStop FaultColumns rest.now) }
{
    let mut at = 0;
    while at < rest.len() {
        match read_step(&rest[at..]) {
            Ok(read) => match read.step {
                Step::Column(column) => {
                    push(specs, column)?;
                    at += read.end;
                }
                Step::End => return Ok(at + read.end),
            },
            Err(fault) => return Err(Stop::Fault(fault_after(at, fault))),
        }
    }
    Err(Stop::Fault(FaultAt {
        kind: Kind::Short,
        at,
    }))
}

// The children byte, and the place after it.
fn read_children(rest: &[u8]) -> Result<bool, Kind>
    ensures read { IfOk result (λ children. (1 ≤ length rest.now) × SpellsChildren children (take 1 rest.now)) }
    ensures fault { IfErr result (λ kind. FaultChildren kind 0 rest.now) }
{
    if rest.is_empty() {
        return Err(Kind::Short);
    }
    match rest[0] {
        0 => Ok(false),
        1 => Ok(true),
        _ => Err(Kind::FormUnknown),
    }
}

/// What follows a tag: the children byte and the columns.
#[derive(Clone, Copy)]
pub struct Flagged {
    pub children: bool,
    pub end: usize,
}

// What follows a tag. The columns are appended.
fn read_flagged(specs: &mut Vec<Spec>, rest: &[u8]) -> Result<Flagged, Stop>
    ensures read { IfOk result (λ r. (r.end ≤ length rest.now) × HasColumns (SpellsFlagged r.children) specs.old.items specs.new.items (take r.end rest.now)) }
    ensures fault { IfErr result (IsStop FaultFlagged rest.now) }
{
    match read_children(rest) {
        Ok(children) => match read_columns(specs, &rest[1..]) {
            Ok(end) => Ok(Flagged {
                children,
                end: 1 + end,
            }),
            Err(Stop::Fault(fault)) => Err(Stop::Fault(fault_after(1, fault))),
            Err(Stop::NoMemory) => Err(Stop::NoMemory),
        },
        Err(kind) => Err(Stop::Fault(FaultAt { kind, at: 0 })),
    }
}

/// What follows a code.
#[derive(Clone, Copy)]
pub struct Tagged {
    pub tag: u64,
    pub children: bool,
    pub end: usize,
}

// What follows a code, which isn't 0. The columns are appended.
fn read_tagged(code: u64, specs: &mut Vec<Spec>, rest: &[u8]) -> Result<Tagged, Stop>
    requires { code ≢ 0 }
    ensures read { IfOk result (λ r. (r.end ≤ length rest.now) × HasColumns (SpellsTagged r.tag r.children) specs.old.items specs.new.items (take r.end rest.now)) }
    ensures fault { IfErr result (IsStop (FaultTagged code) rest.now) }
{
    match read_name(rest) {
        Ok(tag) => match read_flagged(specs, &rest[tag.end..]) {
            Ok(read) => Ok(Tagged {
                tag: tag.value,
                children: read.children,
                end: tag.end + read.end,
            }),
            Err(Stop::Fault(fault)) => Err(Stop::Fault(fault_after(tag.end, fault))),
            Err(Stop::NoMemory) => Err(Stop::NoMemory),
        },
        Err(kind) => Err(Stop::Fault(FaultAt { kind, at: 0 })),
    }
}

// A declaration or the code 0. The columns are appended.
fn read_within(specs: &mut Vec<Spec>, rest: &[u8]) -> Result<ReadDecl, Stop>
    ensures read { IfOk result (IsReadDecl rest.now specs.old.items specs.new.items) }
    ensures fault { IfErr result (IsStop FaultWithin rest.now) }
{
    let code = match read_number(rest) {
        Ok(code) => code,
        Err(kind) => return Err(Stop::Fault(FaultAt { kind, at: 0 })),
    };
    if code.value == 0 {
        return Ok(ReadDecl {
            head: None,
            end: code.end,
        });
    }
    match read_tagged(code.value, specs, &rest[code.end..]) {
        Ok(read) => Ok(ReadDecl {
            head: Some(Head {
                code: code.value,
                tag: read.tag,
                children: read.children,
            }),
            end: code.end + read.end,
        }),
        Err(Stop::Fault(fault)) => Err(Stop::Fault(fault_after(code.end, fault))),
        Err(Stop::NoMemory) => Err(Stop::NoMemory),
    }
}

// Reads a declaration or the code 0, and appends the columns. A form or a children byte that isn't known is said of the
// declaration's first byte.
pub(crate) fn read_declared(specs: &mut Vec<Spec>, rest: &[u8]) -> Result<ReadDecl, Stop>
    ensures read { IfOk result (IsReadDecl rest.now specs.old.items specs.new.items) }
    ensures grows { IfOk result (λ _. length specs.old.items ≤ length specs.new.items) }
    ensures fault { IfErr result (IsStop FaultDeclared rest.now) }
{
    match read_within(specs, rest) {
        Ok(read) => Ok(read),
        Err(Stop::Fault(fault)) => {
            let at = match fault.kind {
                Kind::FormUnknown => 0,
                _ => fault.at,
            };
            Err(Stop::Fault(FaultAt {
                kind: fault.kind,
                at,
            }))
        }
        Err(Stop::NoMemory) => Err(Stop::NoMemory),
    }
}
