//! Expected values are written by hand from the rules of the session file.
use mesh::link::{Link, MeshFault};
use mesh::mesh::{LinkRoom, Mesh};
use session::reader::read;
use session::session::Room;
use standard::report::{report, report_length, session_length, write};
use std::alloc::Global;
use std::test::Fail;
use vocab::faults::{LineFault, ReadError, ReadFault};
use vocab::kinds::{Channel, Detector, Kind};

const FILE: &[u8] =
    b"root nodes kind detector channel\n0 3 width credit stack\nto from cost width\n1 0 5 10\n2 1 0 65535\nstep pick\nwork 0\n";

const STANDARD: &[u8] =
    b"nodes root kind detector channel\n3 0 width credit stack\nfrom to cost width\n0 1 5 10\n1 2 0 65535\nstep pick\nwork 0\n";

// a file whose second line names a root that is no node
const NO_ROOT: &[u8] = b"nodes root kind detector channel\n3 3 width credit stack\n";

const NO_ROOT_REPORT: &[u8] = b"fault layer line field\n4 reader 2 2\n";

fn link(from: u8, to: u8, cost: u16, width: u16) -> Link {
    Link {
        from,
        to,
        cost,
        width,
    }
}

// Whether these parts make a mesh, or the number of the fault.
fn made(heap: Global, nodes: u8, root: u8, links: &[Link]) -> Result<Result<usize, u8>, Fail> {
    let room = LinkRoom::reserve(heap)?;
    Ok(
        Mesh::new(room, nodes, root, links)
            .map(|mesh| mesh.links.len())
            .map_err(MeshFault::number),
    )
}

#[test]
fn meshes(rt: HostRuntime) -> Result<(), Fail> {
    let heap = rt.alloc();
    let there = link(0, 1, 65535, 1);
    let back = link(1, 0, 0, 65535);
    assert_eq!(rt; made(heap, 1, 0, &[])?, Ok(0));
    assert_eq!(rt; made(heap, 2, 1, &[there, back])?, Ok(2));
    assert_eq!(rt; made(heap, 0, 0, &[])?, Err(4));
    assert_eq!(rt; made(heap, 65, 0, &[])?, Err(4));
    assert_eq!(rt; made(heap, 2, 2, &[there])?, Err(4));
    assert_eq!(rt; made(heap, 2, 0, &[link(0, 2, 1, 1)])?, Err(4));
    assert_eq!(rt; made(heap, 2, 0, &[link(0, 1, 1, 0)])?, Err(4));
    assert_eq!(rt; made(heap, 2, 0, &[there, link(1, 1, 1, 1)])?, Err(5));
    assert_eq!(rt; made(heap, 2, 0, &[there, back, link(0, 1, 2, 2)])?, Err(6));
    Ok(())
}

#[test]
fn reads(rt: HostRuntime) -> Result<(), Fail> {
    let session = read(rt.alloc(), FILE)?;
    assert_eq!(rt; (session.mesh.nodes, session.mesh.root), (3, 0));
    assert_eq!(rt;
        (session.kind, session.detector, session.channel),
        (Kind::Width, Detector::Credit, Channel::Stack)
    );
    assert_eq!(rt; (session.mesh.links.len(), session.steps.len()), (2, 1));
    let fault = ReadFault::Line(2, LineFault::BadField(2));
    assert_eq!(rt;
        read(rt.alloc(), NO_ROOT).err(),
        Some(ReadError::Fault(fault))
    );
    Ok(())
}

#[test]
fn writes(rt: HostRuntime) -> Result<(), Fail> {
    let session = read(rt.alloc(), FILE)?;
    let mut text = [b'.'; 128];
    assert_eq!(rt; session_length(&session), STANDARD.len());
    assert_eq!(rt; write(&session, &mut text), Some(STANDARD.len()));
    assert!(rt; text.starts_with(STANDARD));
    assert_eq!(rt; text[113], b'.');
    let mut short = [b'.'; 100];
    assert_eq!(rt; write(&session, &mut short), None);
    assert_eq!(rt; short, [b'.'; 100]);
    Ok(())
}

#[test]
fn reports(rt: HostRuntime) -> Result<(), Fail> {
    let answer = Room::reserve(rt.alloc())?.read(NO_ROOT);
    let mut text = [b'.'; 64];
    assert_eq!(rt; report_length(&answer), NO_ROOT_REPORT.len());
    assert_eq!(rt; report(&answer, &mut text), Some(NO_ROOT_REPORT.len()));
    assert!(rt; text.starts_with(NO_ROOT_REPORT));
    assert_eq!(rt; text[36], b'.');
    Ok(())
}
