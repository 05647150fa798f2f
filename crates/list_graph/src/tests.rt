//! Small tables, and what is asked of their graphs.

ghost use Rattle.std.specs.Prelude.{◌≡◌};
ghost use Rattle.list_graph.specs.Layout.{marked, joined};

use crate::layout::{TABLE_BYTES, arc_stands, flag_stands, set_arc, set_flag};
use crate::list::ListGraph;
use graph::{Graph, Refusal, is_stuck};
use std::test::Fail;

// Flag 1 stands at mode 9, and command 2 joins mode 3 to modes 3 and 10.
fn write_table(bytes: &mut [u8])
    ensures memory { bytes.new ≡ joined (joined (marked bytes.old 1 9) 2 3 3) 2 3 10 }
{
    set_flag(bytes, 1, 9);
    set_arc(bytes, 2, 3, 3);
    set_arc(bytes, 2, 3, 10);
}

#[test]
fn bits_have_their_places(rt: HostRuntime) {
    let mut bytes = [0; TABLE_BYTES];
    write_table(&mut bytes);
    assert_eq!(rt; bytes[9], 2);
    assert_eq!(rt; bytes[1176], 8);
    assert_eq!(rt; bytes[1177], 4);
    assert!(rt; flag_stands(&bytes, 1, 9));
    assert!(rt; arc_stands(&bytes, 2, 3, 10));
    assert!(rt; !arc_stands(&bytes, 2, 10, 3));
}

#[test]
fn past_the_end_is_no_bit(rt: HostRuntime) {
    let mut bytes = [0; 4];
    set_flag(&mut bytes, 1, 9);
    assert_eq!(rt; bytes, [0; 4]);
    assert!(rt; !flag_stands(&bytes, 1, 9));
}

#[test]
fn graph_answers(rt: HostRuntime) -> Result<(), Fail> {
    let mut bytes = [0; TABLE_BYTES];
    write_table(&mut bytes);
    let g = ListGraph::new(&bytes, 12, 3, 2)?;
    assert!(rt; g.has_flag(1, 9) && !g.has_flag(0, 9));
    assert!(rt; g.joins(2, 3, 10) && !g.joins(2, 10, 3));
    assert_eq!(rt; g.next_target(2, 3, 0), Some(3));
    assert_eq!(rt; g.next_target(2, 3, 4), Some(10));
    assert_eq!(rt; g.next_target(2, 3, 11), None);
    assert!(rt; !is_stuck(&g, 3) && is_stuck(&g, 10));
    Ok(())
}

#[test]
fn bits_beyond_the_counts_mean_nothing(rt: HostRuntime) -> Result<(), Fail> {
    let mut bytes = [0; TABLE_BYTES];
    write_table(&mut bytes);
    let g = ListGraph::new(&bytes, 9, 3, 1)?;
    assert!(rt; !g.has_flag(1, 9) && !g.has_flag(255, 255));
    assert!(rt; !g.joins(2, 3, 10) && !g.joins(255, 255, 255));
    assert_eq!(rt; g.next_target(2, 3, 4), None);
    assert_eq!(rt; g.next_target(255, 3, 0), None);
    assert!(rt; is_stuck(&g, 3) && !is_stuck(&g, 9));
    Ok(())
}

#[test]
fn short_memory_is_refused_before_counts(rt: HostRuntime) {
    let bytes = [0; TABLE_BYTES];
    assert_eq!(rt;
        ListGraph::new(&bytes[..TABLE_BYTES - 1], 0, 0, 17).err(),
        Some(Refusal::MemoryShort)
    );
    assert_eq!(rt;
        ListGraph::new(&bytes, 0, 1, 0).err(),
        Some(Refusal::LimitBroken)
    );
    assert_eq!(rt;
        ListGraph::new(&bytes, 65, 1, 0).err(),
        Some(Refusal::LimitBroken)
    );
    assert_eq!(rt;
        ListGraph::new(&bytes, 64, 17, 0).err(),
        Some(Refusal::LimitBroken)
    );
    assert_eq!(rt;
        ListGraph::new(&bytes, 64, 16, 17).err(),
        Some(Refusal::LimitBroken)
    );
    assert_eq!(rt; ListGraph::new(&bytes, 64, 16, 16).err(), None);
    assert!(rt; Refusal::MemoryShort.number() == 9 && Refusal::LimitBroken.number() == 16);
}
