// Files made by hand, and what the program answers to them.
use commands::run;
use dw_base::{MemHost, NamedFile};
use std::alloc::{AllocError, Global};
use std::process::Abort;
use std::test::Fail;

// Adds the header of a section without flags, whose alignment is 1.
fn push_header(
    headers: &mut Vec<u8>,
    name: usize,
    kind: u8,
    offset: usize,
    size: usize,
) -> Result<(), AllocError> {
    headers.extend_from_slice(&(name as u64).to_le_bytes()[..4])?;
    headers.extend_from_slice(&[kind, 0, 0, 0])?;
    headers.extend_from_slice(&[0; 16])?;
    headers.extend_from_slice(&(offset as u64).to_le_bytes())?;
    headers.extend_from_slice(&(size as u64).to_le_bytes())?;
    headers.extend_from_slice(&[0; 8])?;
    headers.extend_from_slice(&[1, 0, 0, 0, 0, 0, 0, 0])?;
    headers.extend_from_slice(&[0; 8])
}

/// An executable file with these sections and, behind them, the one that holds the names.
pub fn elf_file(alloc: Global, sections: &[(&str, &[u8])]) -> Result<Vec<u8>, AllocError> {
    let mut bodies = Vec::new(alloc);
    let mut names = [0u8].to_vec(alloc)?;
    let mut headers = vec![in alloc; 0u8; 64]?;
    for (name, body) in sections {
        push_header(&mut headers, names.len(), 1, 64 + bodies.len(), body.len())?;
        names.extend_from_slice(name.as_bytes())?;
        names.push(0)?;
        bodies.extend_from_slice(body)?;
    }
    let last = b".shstrtab\0";
    push_header(
        &mut headers,
        names.len(),
        3,
        64 + bodies.len(),
        names.len() + last.len(),
    )?;
    names.extend_from_slice(last)?;
    bodies.extend_from_slice(&names)?;
    let rest = bodies.len() % 8;
    bodies.extend_from_slice(&[0; 8][..(8 - rest) % 8])?;

    let count = (sections.len() as u64).saturating_add(2);
    let mut file = [0x7f, 0x45, 0x4c, 0x46, 2, 1, 1, 0].to_vec(alloc)?;
    file.extend_from_slice(&[0; 8])?;
    file.extend_from_slice(&[2, 0, 62, 0, 1, 0, 0, 0])?;
    file.extend_from_slice(&[0; 16])?;
    file.extend_from_slice(&(64 + bodies.len() as u64).to_le_bytes())?;
    file.extend_from_slice(&[0, 0, 0, 0, 64, 0, 0, 0, 0, 0, 64, 0])?;
    file.extend_from_slice(&count.to_le_bytes()[..2])?;
    file.extend_from_slice(&(count - 1).to_le_bytes()[..2])?;
    file.extend_from_slice(&bodies)?;
    file.extend_from_slice(&headers)?;
    Ok(file)
}

/// Bytes with others at some places.
pub fn with_bytes(
    alloc: Global,
    bytes: &[u8],
    changes: &[(usize, u8)],
) -> Result<Vec<u8>, AllocError> {
    let mut changed = bytes.to_vec(alloc)?;
    for (at, byte) in changes {
        if let Some(old) = changed.get_mut(*at) {
            *old = *byte;
        }
    }
    Ok(changed)
}

/// Sections of which the one with a number has another body.
pub fn with_section<'a>(
    alloc: Global,
    sections: &[(&'a str, &'a [u8])],
    number: usize,
    body: &'a [u8],
) -> Result<Vec<(&'a str, &'a [u8])>, AllocError> {
    let mut changed = sections.to_vec(alloc)?;
    if let Some(section) = changed.get_mut(number) {
        section.1 = body;
    }
    Ok(changed)
}

/// Words of a command.
pub fn words_of(alloc: Global, words: &[&str]) -> Result<Vec<String>, AllocError> {
    let mut all = Vec::new(alloc);
    for word in words {
        all.push(String::from_str(alloc, word)?)?;
    }
    Ok(all)
}

/// The bytes that the output has before the program runs.
pub const BEFORE: [u8; 2] = [1, 2];

/// The byte that the certificate has before.
pub const CERTIFICATE_BEFORE: [u8; 1] = [3];

/// The first bytes of each certificate.
pub const MAGIC: [u8; 8] = [0x44, 0x57, 0x4d, 0x49, 0x4e, 0x30, 0x31, 0x0a];

/// The answer of the program: its status, what it says, and the files `b` and `c`, which have two bytes and one before.
#[derive(Drop)]
pub struct Answer {
    /// The status.
    pub status: u8,
    /// What is said.
    pub said: Vec<u8>,
    /// The bytes of the file `b`.
    pub output: Vec<u8>,
    /// The bytes of the file `c`.
    pub certificate: Vec<u8>,
}

/// A file with a name.
pub fn named(alloc: Global, name: &str, bytes: Vec<u8>) -> Result<NamedFile, AllocError> {
    let name = String::from_str(alloc, name)?;
    Ok(NamedFile { name, bytes })
}

/// The answer to words, where the file `a` has the bytes of `input`, and is missing where there are none. The calls of the host
/// with the numbers in `failing` fail.
pub fn answer_to(
    alloc: Global,
    words: &[&str],
    input: Option<Vec<u8>>,
    failing: &[u64],
) -> Result<Answer, Fail> {
    let mut files = Vec::new(alloc);
    if let Some(bytes) = input {
        files.push(named(alloc, "a", bytes)?)?;
    }
    files.push(named(alloc, "b", BEFORE.to_vec(alloc)?)?)?;
    files.push(named(alloc, "c", CERTIFICATE_BEFORE.to_vec(alloc)?)?)?;
    let mut host = MemHost::new(alloc, files, failing.to_vec(alloc)?);
    let status = run(alloc, &words_of(alloc, words)?, &mut host);
    Ok(Answer {
        status,
        said: host.said().as_slice().to_vec(alloc)?,
        output: host.file("b").ok_or("no b")?.as_slice().to_vec(alloc)?,
        certificate: host.file("c").ok_or("no c")?.as_slice().to_vec(alloc)?,
    })
}

/// The answer to `shrink a b c`, where `a` is a file with these sections.
pub fn shrunk(alloc: Global, sections: &[(&str, &[u8])]) -> Result<Answer, Fail> {
    let input = elf_file(alloc, sections)?;
    answer_to(alloc, &["shrink", "a", "b", "c"], Some(input), &[])
}

/// Stops where the program didn't write a file with these sections and a certificate.
pub fn is_written(
    rt: &impl Abort,
    alloc: Global,
    answer: &Answer,
    sections: &[(&str, &[u8])],
) -> Result<(), Fail> {
    let wanted = elf_file(alloc, sections)?;
    assert_eq!(rt; answer.status, 0);
    assert_eq!(rt; answer.said.as_slice(), b"".as_slice());
    assert_eq!(rt; answer.output.as_slice(), wanted.as_slice());
    assert_eq!(rt; answer.certificate.as_slice().starts_with(&MAGIC), true);
    Ok(())
}

/// Stops where the certificate doesn't have these records.
pub fn is_certified(
    rt: &impl Abort,
    alloc: Global,
    answer: &Answer,
    records: &[u8],
) -> Result<(), Fail> {
    let mut wanted = MAGIC.to_vec(alloc)?;
    wanted.extend_from_slice(records)?;
    assert_eq!(rt; answer.certificate.as_slice(), wanted.as_slice());
    Ok(())
}

/// Stops where the program didn't answer with this status and these words, or wrote a file.
pub fn is_unwritten(rt: &impl Abort, answer: &Answer, status: u8, said: &str) {
    assert_eq!(rt; answer.status, status, "{said}");
    assert_eq!(rt; answer.said.as_slice(), said.as_bytes());
    assert_eq!(rt; answer.output.as_slice(), BEFORE.as_slice());
    assert_eq!(rt;
        answer.certificate.as_slice(),
        CERTIFICATE_BEFORE.as_slice()
    );
}

/// Stops where the program didn't refuse the file with words that begin so, or wrote a file.
pub fn is_refused(rt: &impl Abort, answer: &Answer, front: &str) {
    let said = answer.said.as_slice();
    assert_eq!(rt; said.starts_with(front.as_bytes()), true, "{front}");
    assert_eq!(rt; answer.status, 3, "{front}");
    assert_eq!(rt; answer.output.as_slice(), BEFORE.as_slice());
    assert_eq!(rt;
        answer.certificate.as_slice(),
        CERTIFICATE_BEFORE.as_slice()
    );
}
