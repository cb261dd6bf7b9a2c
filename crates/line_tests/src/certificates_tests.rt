// Record files that were written by hand and by another program.
use certificates::{CertFault, Proof, Run, put_record, read, read_record, write};
use dw_base::NoMemory;
use std::alloc::Global;
use std::test::Fail;

// The first bytes of a record file.
const MAGIC: [u8; 8] = [0x44, 0x57, 0x4d, 0x49, 0x4e, 0x30, 0x31, 0x0a];

// The records of a small file: a line program without rows, a range list and a location list of two items each, and a unit
// without slots.
const SMALL: [u8; 15] = [
    0x01, 0x80, 0xfe, 0x03, 0x00, 0x02, 0x02, 0x09, 0x06, 0x02, 0x02, 0x09, 0x06, 0x03, 0x00,
];

// Those of three line programs, the second with many runs, a list of two items and three units without slots.
const LARGE: [u8; 56] = [
    0x01, 0x80, 0xfe, 0x03, 0x04, 0x01, 0x81, 0x05, 0x08, 0x01, 0x0a, 0xfe, 0x01, 0x08, 0x02, 0x0a,
    0xfd, 0x01, 0x08, 0x01, 0x0a, 0xfe, 0x01, 0x08, 0x02, 0x0a, 0xfd, 0x01, 0x08, 0x03, 0x0a, 0xff,
    0x01, 0x08, 0x01, 0x0a, 0x80, 0xef, 0x03, 0x08, 0x01, 0x80, 0xfe, 0x03, 0x01, 0x02, 0x03, 0x0f,
    0x0c, 0x07, 0x03, 0x00, 0x03, 0x00, 0x03, 0x00,
];

// The file of these records' bytes.
fn file_of(alloc: Global, records: &[u8]) -> Result<Vec<u8>, NoMemory> {
    let mut file = Vec::new(alloc);
    file.extend_from_slice(&MAGIC)?;
    file.extend_from_slice(records)?;
    Ok(file)
}

// How many records there are.
fn count_of(read: Result<Vec<Proof>, CertFault>) -> Result<usize, CertFault> {
    match read {
        Ok(proofs) => Ok(proofs.len()),
        Err(fault) => Err(fault),
    }
}

// The file that is read and written again.
fn written_again(alloc: Global, bytes: &[u8]) -> Result<Vec<u8>, CertFault> {
    let proofs = read(alloc, bytes)?;
    Ok(write(alloc, &proofs)?)
}

#[test]
fn records_are_read(rt: HostRuntime) -> Result<(), Fail> {
    let file = file_of(rt.alloc(), &SMALL)?;
    let proofs = read(rt.alloc(), &file).map_err(|_| "no records")?;
    match proofs.as_slice() {
        [
            Proof::Lines(runs),
            Proof::List(first),
            Proof::List(second),
            Proof::Layout(ranks),
        ] => {
            let all = Run {
                len: 65_280,
                number: 0,
            };
            assert_eq!(rt; runs.as_slice(), &[all][..]);
            assert_eq!(rt; first.as_slice(), &[9, 6][..]);
            assert_eq!(rt; second.as_slice(), &[9, 6][..]);
            assert!(rt; ranks.is_empty());
        }
        _ => return Err("other records".into()),
    }
    Ok(())
}

#[test]
fn records_are_written(rt: HostRuntime) -> Result<(), Fail> {
    let rows: [(&[u8], usize); 6] = [
        (&[], 0),
        (&[0x01, 0x80, 0xfe, 0x03, 0x00], 1),
        (&[0x03, 0x00], 1),
        (&[0x03, 0x00, 0x03, 0x00, 0x03, 0x01, 0x00], 3),
        (&SMALL, 4),
        (&LARGE, 7),
    ];
    for (records, count) in rows {
        let file = file_of(rt.alloc(), records)?;
        assert_eq!(rt; count_of(read(rt.alloc(), &file)), Ok(count));
        let again = written_again(rt.alloc(), &file).map_err(|_| "not written")?;
        assert_eq!(rt; again.as_slice(), file.as_slice());
    }
    Ok(())
}

#[test]
fn one_record_is_read_and_written(rt: HostRuntime) -> Result<(), Fail> {
    let Some(read) = read_record(rt.alloc(), &SMALL, 5)? else {
        return Err("no record".into());
    };
    assert_eq!(rt; read.end, 9);
    let mut out = Vec::new(rt.alloc());
    put_record(&mut out, &read.proof)?;
    assert_eq!(rt; out.as_slice(), &SMALL[5..9]);
    assert!(rt; read_record(rt.alloc(), &SMALL, 4)?.is_none());
    Ok(())
}

#[test]
fn broken_records_are_named(rt: HostRuntime) -> Result<(), Fail> {
    for cut in 0..8 {
        assert_eq!(rt;
            count_of(read(rt.alloc(), &MAGIC[..cut])),
            Err(CertFault::Broken(0))
        );
    }
    let rows: [(&[u8], u64); 14] = [
        // bytes of no kind
        (&[0x00], 8),
        (&[0x03, 0x00, 0x04, 0x00], 10),
        // records that are cut
        (&SMALL[..4], 8),
        (&SMALL[..8], 13),
        (&SMALL[..14], 21),
        // a byte more, whose record isn't there
        (&[0x03, 0x00, 0x01], 10),
        // numbers that are longer than they must be, or wider than 64 bits
        (&[0x01, 0x80, 0xfe, 0x83, 0x00, 0x00], 8),
        (&[0x02, 0x80, 0x00], 8),
        (
            &[
                0x03, 0x01, 0xff, 0xff, 0xff, 0xff, 0xff, 0xff, 0xff, 0xff, 0xff, 0x02,
            ],
            8,
        ),
        // a run of no pair, runs of a pair more and of more than a pair more
        (&[0x01, 0x00, 0x00, 0x80, 0xfe, 0x03, 0x01], 8),
        (&[0x01, 0x81, 0xfe, 0x03, 0x00], 8),
        (&[0x01, 0x01, 0x00, 0x80, 0xfe, 0x03, 0x01], 8),
        // neighbours with one number
        (&[0x01, 0x80, 0xff, 0x01, 0x05, 0x80, 0xff, 0x01, 0x05], 8),
        // a number of steps that isn't below 2^32
        (&[0x01, 0x80, 0xfe, 0x03, 0x80, 0x80, 0x80, 0x80, 0x10], 8),
    ];
    for (records, place) in rows {
        let file = file_of(rt.alloc(), records)?;
        assert_eq!(rt;
            count_of(read(rt.alloc(), &file)),
            Err(CertFault::Broken(place))
        );
    }
    Ok(())
}
