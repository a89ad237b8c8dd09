// Reads nodes: their keys, needs, and the places of their exits and points.
ghost use Rattle.std.specs.Prelude.{◌≡◌, ◌≤◌, ◌+◌, ◌^◌, length, map, Ok, OnOk, IfOk, IfErr};
ghost use Rattle.std.specs.List.{All};
ghost use Rattle.depth_cert.specs.Answers.{IsFaultOf};
ghost use Rattle.depth_cert.specs.Grammar.{node_after, last_number};
ghost use Rattle.depth_cert.specs.Nodes.{count_points};
ghost use Rattle.packed_cert.specs.NodesInBytes.{node_in_bytes, nodes_in_bytes, AreNodePlaces, HasLastExit};
ghost use Rattle.packed_cert.specs.PointsInBytes.{HasLastState};

use crate::exits::read_optional_exit;
use crate::places::NodePlaces;
use crate::point_reader::{ReadingRoom, read_points};
use depth_cert::{CertErr, key_number, read_key, read_need};
use std::alloc::Global;
use tcd_base::FileCursor;

/// Reads the node after `before`, in format `version`: key, need, byte offsets of exit and states.
/// `room` keeps the exit and state read last, to skip equal bytes.
#[tactic(auto, unfolding(depth_cert::specs::Grammar::node_after))]
pub(crate) fn read_node(
    alloc: Global,
    c: &mut FileCursor<'_>,
    bytes: &[u8],
    version: u8,
    before: &[NodePlaces],
    room: &mut ReadingRoom,
) -> Result<NodePlaces, CertErr>
    requires same { c.old.bytes ≡ bytes.now }
    requires places { All (AreNodePlaces version bytes.now) before.now }
    requires used { room.old.used ≡ count_points (nodes_in_bytes version bytes.now before.now) }
    requires few { room.old.used ≤ 2 ^ 16 }
    requires exit { HasLastExit version bytes.now room.old.exit }
    requires state { HasLastState version bytes.now room.old }
    ensures ok { IfOk result (λ n.
        node_after version (nodes_in_bytes version bytes.now before.now) c.old
        ≡ Ok (node_in_bytes version bytes.now n, c.new)) }
    ensures err { IfErr result (IsFaultOf
        (node_after version (nodes_in_bytes version bytes.now before.now) c.old)) }
    ensures places { IfOk result (AreNodePlaces version bytes.now) }
    ensures used { IfOk result (λ n. room.new.used ≡ room.old.used + length n.points.items) }
    ensures few { OnOk result (room.new.used ≤ 2 ^ 16) }
    ensures exit { OnOk result (HasLastExit version bytes.now room.new.exit) }
    ensures state { OnOk result (HasLastState version bytes.now room.new) }
    ensures bytes { c.new.bytes ≡ c.old.bytes }
{
    let _place = c.place(); // so that the prover knows that the bytes are few
    let key = read_key(c, last_key_number(before))?;
    let number = key_number(&key);
    let need = read_need(c)?;
    let exit = read_optional_exit(c, bytes, version, key.kind, &mut room.exit)?;
    let points = read_points(alloc, c, bytes, version, room)?;
    Ok(NodePlaces {
        key,
        number,
        need,
        exit,
        points,
    })
}

/// Returns the number of the last node's key, which the next key's number has to exceed; `None` if
/// no node of the certificate was read.
fn last_key_number(nodes: &[NodePlaces]) -> Option<u64>
    ensures { result ≡ last_number (map (λ n. n.number) nodes.now) }
{
    match nodes.last() {
        None => None,
        Some(node) => Some(node.number),
    }
}
