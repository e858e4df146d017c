// The records that a table finds, and the reads that it counts.
use sg_table::{Kind, Run, RunTable};
use std::test::Fail;

const THREE_AT_40: Run = Run {
    start: 40,
    count: 3,
    first: 1,
    last: 3,
    kind: Kind::Data,
};

/// The probes and the visits that a table has counted.
fn counted(table: &RunTable) -> (u64, u64) {
    (table.probes(), table.visits())
}

#[test]
fn a_first_address_counts_as_a_probe_and_a_record_as_a_visit(rt: HostRuntime) -> Result<(), Fail> {
    let mut table = RunTable::new(rt.alloc(), 4)?;
    table.splice(0, 0, &[Run::single(10, 0, Kind::Anchored), THREE_AT_40]);
    let starts = (table.start(0), table.start(1));
    let probed = counted(&table);
    let count = table.visit(1).count;
    let visited = counted(&table);
    let held = (table.count(), table.data_count());
    table.restart_counts();
    assert_eq!(rt; (held, starts, count), ((2, 3), (10, 40), 3));
    assert_eq!(rt;
        [probed, visited, counted(&table)],
        [(2, 0), (2, 1), (0, 0)]
    );
    Ok(())
}
