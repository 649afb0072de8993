use data_layout::row::Row;
use data_layout::table::{
    Table, entry_rows, fixed_rows, header_rows, locality_row, structure_rows, type_rows,
};

fn bytes_of(rows: &[Row]) -> u64 {
    let mut bytes = 0u64;
    for row in rows {
        bytes = bytes.saturating_add(row.width);
    }
    bytes
}

// A table, its revision, and the length of its header and its fixed part in the ACPI Specification 6.4, and in the HPET and MCFG
// specifications.
static FIXED_PARTS: [(Table, u64, u64); 24] = [
    (Table::Facp, 1, 116),
    (Table::Facp, 3, 244),
    (Table::Facp, 4, 244),
    (Table::Facp, 5, 268),
    (Table::Facp, 6, 276),
    (Table::Apic, 5, 44),
    (Table::Mcfg, 1, 44),
    (Table::Hpet, 1, 56),
    (Table::Srat, 3, 48),
    (Table::Slit, 1, 44),
    (Table::Waet, 1, 40),
    (Table::Bert, 1, 48),
    (Table::Bgrt, 1, 56),
    (Table::Spcr, 2, 80),
    (Table::Tpm2, 4, 76),
    (Table::Erst, 1, 48),
    (Table::Einj, 1, 48),
    (Table::Pcct, 2, 48),
    (Table::Tcpa, 2, 50),
    (Table::Gtdt, 2, 96),
    (Table::Gtdt, 3, 104),
    (Table::Hest, 1, 40),
    (Table::Viot, 0, 48),
    (Table::Nfit, 1, 40),
];

#[test]
fn fixed_parts_have_their_lengths(rt: HostRuntime) {
    assert!(rt; bytes_of(header_rows()) == 36);
    for (table, revision, bytes) in &FIXED_PARTS {
        assert!(rt; bytes_of(fixed_rows(*table, *revision)).saturating_add(36) == *bytes);
    }
    assert!(rt; bytes_of(entry_rows(Table::Mcfg)) == 16);
    assert!(rt; bytes_of(entry_rows(Table::Erst)) == 32);
    assert!(rt; bytes_of(&[locality_row(20, 3)]) == 20);
}

// A table, the type of a structure, and its length in the ACPI Specification 6.4, 5.2.12, 5.2.16, 5.2.25, 5.2.26, 14.1 and 18.3.
static STRUCTURES: [(Table, u64, u64); 39] = [
    (Table::Apic, 0, 8),
    (Table::Apic, 1, 12),
    (Table::Apic, 2, 10),
    (Table::Apic, 3, 8),
    (Table::Apic, 4, 6),
    (Table::Apic, 5, 12),
    (Table::Apic, 9, 16),
    (Table::Apic, 10, 12),
    (Table::Apic, 11, 80),
    (Table::Apic, 12, 24),
    (Table::Apic, 13, 24),
    (Table::Apic, 14, 16),
    (Table::Apic, 15, 20),
    (Table::Srat, 0, 16),
    (Table::Srat, 1, 40),
    (Table::Srat, 2, 24),
    (Table::Srat, 3, 18),
    (Table::Srat, 4, 12),
    (Table::Srat, 5, 32),
    (Table::Pcct, 0, 62),
    (Table::Pcct, 1, 62),
    (Table::Pcct, 2, 90),
    (Table::Pcct, 3, 164),
    (Table::Pcct, 4, 164),
    (Table::Gtdt, 1, 28),
    (Table::Hest, 6, 48),
    (Table::Hest, 7, 44),
    (Table::Hest, 8, 56),
    (Table::Hest, 9, 64),
    (Table::Hest, 10, 92),
    (Table::Viot, 1, 24),
    (Table::Viot, 2, 24),
    (Table::Viot, 3, 16),
    (Table::Viot, 4, 16),
    (Table::Nfit, 0, 56),
    (Table::Nfit, 1, 48),
    (Table::Nfit, 4, 80),
    (Table::Nfit, 5, 40),
    (Table::Nfit, 7, 16),
];

#[test]
fn structures_have_their_lengths(rt: HostRuntime) {
    assert!(rt; bytes_of(type_rows(Table::Apic)) == 1);
    for (table, structure, bytes) in &STRUCTURES {
        match structure_rows(*table, *structure) {
            Some(rows) => {
                assert!(rt; bytes_of(rows).saturating_add(bytes_of(type_rows(*table))) == *bytes);
            },
            None => assert!(rt; false),
        }
    }
    assert!(rt; structure_rows(Table::Apic, 16).is_none());
    assert!(rt; structure_rows(Table::Hpet, 0).is_none());
}
