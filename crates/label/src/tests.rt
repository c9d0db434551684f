//! Worked values and random ones; what is expected was computed by an outside program from the rules of the kinds.
use crate::cost::Cost;
use crate::label::Label;
use crate::printed::Printed;
use crate::width::Width;
use mesh::link::Link;
use text::output::Output;

// a cost and a width; the cost and the width of a link; the cost and the width after it
const EXTENSIONS: [(u32, u16, u16, u16, u32, u16); 24] = [
    (4294967294, 4, 0, 8, 4294967294, 4),
    (4294967294, 4, 1, 8, 4294967295, 4),
    (4294967295, 0, 0, 65535, 4294967295, 0),
    (0, 65535, 0, 1, 0, 1),
    (4294967293, 1, 1, 1, 4294967294, 1),
    (4294901760, 65535, 65535, 65534, 4294967295, 65534),
    (4294901759, 7, 65535, 7, 4294967294, 7),
    (4294967295, 0, 65535, 1, 4294967295, 0),
    (3567785002, 5959, 2371, 14753, 3567787373, 5959),
    (64838, 21649, 28485, 44382, 93323, 21649),
    (3750077109, 48502, 827, 13649, 3750077936, 13649),
    (1182822583, 27317, 51150, 9447, 1182873733, 9447),
    (64765, 28332, 6718, 56208, 71483, 28332),
    (23661, 20084, 52637, 56517, 76298, 20084),
    (3090169802, 38767, 44860, 39094, 3090214662, 38767),
    (2563836878, 52214, 35342, 44539, 2563872220, 44539),
    (3011258360, 25746, 36174, 54851, 3011294534, 25746),
    (4084028639, 19821, 8623, 60075, 4084037262, 19821),
    (61125, 3763, 36442, 56296, 97567, 3763),
    (4116293238, 7456, 45233, 2782, 4116338471, 2782),
    (61936, 51477, 50189, 48446, 112125, 48446),
    (12533, 22214, 2306, 53196, 14839, 22214),
    (2361077395, 21140, 18994, 11673, 2361096389, 11673),
    (97831, 39612, 34961, 11938, 132792, 11938),
];

// The metrics after a link.
fn extended(cost: u32, width: u16, link: &Link) -> (u32, u16) {
    (
        Cost::from(cost).extend(link).metric,
        Width::from(width).extend(link).metric,
    )
}

#[test]
fn extensions(rt: HostRuntime) {
    for (cost, width, by_cost, by_width, new_cost, new_width) in EXTENSIONS {
        let link = Link {
            from: 0,
            to: 1,
            cost: by_cost,
            width: by_width,
        };
        assert_eq!(rt; extended(cost, width, &link), (new_cost, new_width));
    }
}

// What is written of a label from place 1 on, with the length.
fn shown<K: Printed>(label: K) -> ([u8; 12], usize) {
    let mut out = [b'.'; 12];
    let mut output = Output {
        bytes: &mut out,
        end: 1,
    };
    label.put_text(&mut output);
    let end = output.end;
    (out, end)
}

#[test]
fn texts(rt: HostRuntime) {
    assert_eq!(rt; shown(Cost::from(0)), (*b".0..........", 2));
    assert_eq!(rt; shown(Cost::from(4294967294)), (*b".4294967294.", 11));
    assert_eq!(rt; shown(Cost::from(4294967295)), (*b".-..........", 2));
    assert_eq!(rt; shown(Width::from(65535)), (*b".65535......", 6));
    assert_eq!(rt; shown(Width::from(10)), (*b".10.........", 3));
    assert_eq!(rt; shown(Width::from(0)), (*b".-..........", 2));
}

#[test]
fn orders(rt: HostRuntime) {
    assert!(rt; Cost::from(3).better(&Cost::from(4)));
    assert!(rt; !Cost::from(4).better(&Cost::from(4)));
    assert!(rt; Cost::from(4294967294).better(&Cost::none()));
    assert!(rt; Width::from(5).better(&Width::from(4)));
    assert!(rt; !Width::from(5).better(&Width::from(5)));
    assert!(rt; Width::from(1).better(&Width::none()));
}
