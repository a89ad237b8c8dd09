// Reads a certificate: its head, and the places of its nodes.
ghost use Rattle.std.specs.Prelude.{◌≡◌, ◌≤◌, ◌^◌, [], length, Ok, IfOk, IfErr};
ghost use Rattle.std.specs.List.{All};
ghost use Rattle.depth_cert.specs.Answers.{IsFaultOf};
ghost use Rattle.tcd_base.specs.FieldReaders.{many_fields_at};
ghost use Rattle.depth_cert.specs.Grammar.{node_after, certificate_of};
ghost use Rattle.packed_cert.specs.NodesInBytes.{nodes_in_bytes, cert_in_bytes, AreNodePlaces};

use crate::node_reader::read_node;
use crate::places::NodePlaces;
use crate::point_reader::{ExitRoom, ReadingRoom, blank_state_for_reading};
use depth_cert::{CertErr, blank_exit, read_magic, read_node_count, read_version};
use std::alloc::Global;
use tcd_base::{FileCursor, TRAILING, form_err_at};

/// Reads the format of the certificate that the bytes spell, and each node: key, need, and the byte
/// offsets of exit and states. An error is the first fault of the bytes, or `NoMemory`.
#[tactic(auto, unfolding(depth_cert::specs::Grammar::certificate_of, depth_cert::specs::Grammar::cert_at))]
pub(crate) fn read_cert_data(alloc: Global, bytes: &[u8]) -> Result<(u8, Vec<NodePlaces>), CertErr>
    requires { length bytes.now ≤ 2 ^ 30 }
    ensures ok { IfOk result
        (λ r. certificate_of bytes.now ≡ Ok (cert_in_bytes r.0 bytes.now r.1.items)) }
    ensures err { IfErr result (IsFaultOf (certificate_of bytes.now)) }
    ensures places { IfOk result (λ r. All (AreNodePlaces r.0 bytes.now) r.1.items) }
{
    let mut c = FileCursor::new(bytes);
    let _magic = read_magic(&mut c)?;
    let version = read_version(&mut c)?;
    let count = read_node_count(&mut c)?;
    let nodes = read_nodes(alloc, &mut c, bytes, version, count)?;
    let end = c.place();
    if end != bytes.len() {
        return Err(CertErr::Bad(form_err_at(TRAILING, end)));
    }
    Ok((version, nodes))
}

/// Reads `count` nodes of a certificate of format `version` at the cursor: keys, needs, and byte
/// offsets of exits and states. `bytes` are those of the cursor.
fn read_nodes(
    alloc: Global,
    c: &mut FileCursor<'_>,
    bytes: &[u8],
    version: u8,
    count: u16,
) -> Result<Vec<NodePlaces>, CertErr>
    requires same { c.old.bytes ≡ bytes.now }
    ensures ok { IfOk result (λ ns.
        many_fields_at (node_after version) count [] c.old
        ≡ Ok (nodes_in_bytes version bytes.now ns.items, c.new)) }
    ensures err { IfErr result (IsFaultOf (many_fields_at (node_after version) count [] c.old)) }
    ensures places { IfOk result (λ ns. All (AreNodePlaces version bytes.now) ns.items) }
    ensures bytes { c.new.bytes ≡ c.old.bytes }
{
    let mut nodes = Vec::new(alloc);
    let mut room = ReadingRoom {
        exit: ExitRoom {
            exit: blank_exit(),
            last: None,
        },
        state: blank_state_for_reading(),
        last: None,
        used: 0,
    };
    for _i in 0..count {
        let node = read_node(alloc, c, bytes, version, &nodes, &mut room)?;
        nodes.push(node)?;
    }
    Ok(nodes)
}
