// Columns by their numbers over a whole table.
use abbrev_tables::{Spec, Table};
use std::process::Abort;
use std::test::Fail;

#[test]
fn columns_by_number(rt: HostRuntime) -> Result<(), Fail> {
    let bytes = [
        1u8, 0x11, 1, 0x03, 0x08, 0x13, 0x21, 0x7f, 0, 0, 2, 0x24, 0, 0, 0, 3, 0x34, 0, 0x49, 0x13,
        0, 0, 0,
    ];
    let columns = [
        (0u32, 0x03, 0x08, 0),
        (1, 0x13, 0x21, -1),
        (2, 0x49, 0x13, 0),
    ];
    let table = Table::read(rt.alloc(), &bytes, 0, 0).ok().ok_or("refused")?;
    assert_eq!(rt; table.specs().len(), columns.len());
    for (number, name, form, constant) in columns {
        assert!(rt; (number as usize) < table.specs().len());
        let expected = Spec {
            name,
            form,
            constant,
        };
        assert_eq!(rt; table.spec(number), expected);
    }
    Ok(())
}
