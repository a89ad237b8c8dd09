// The type `Node`: a node whose exit and states stay in the bytes of its certificate.
ghost use Rattle.std.specs.Prelude.{◌≡◌, ◌<◌, nat_lt, ◌==◌, length};
ghost use Rattle.std.specs.Option.{option_map};
ghost use Rattle.packed_cert.specs.NodesInBytes.{node_in_bytes, AreNodePlaces};
ghost use Rattle.packed_cert.specs.PointsInBytes.{AscendByAddress, IsCountOfPointsBelow};

use crate::exits::ExitAt;
use crate::places::{NodePlaces, PointPlace};
use crate::states::StateAt;
use crate::walks::PointWalk;
use depth_cert::Key;
use std::marker::Model;

/// A node whose exit and states stay in the bytes of its certificate.
#[derive(Drop)]
pub struct Node<'a> {
    bytes: &'a [u8],
    version: u8,
    pub key: Key,
    pub need: u16,
    exit: Option<u32>,
    points: &'a [PointPlace],
    /// The number of the point that a look-up tries first.
    near: usize,
}

impl<'a> Model for Node<'a> {
    ghost use Rattle.depth_cert.specs.Nodes.{NodeData};
    ghost use Rattle.packed_cert.specs.NodesInBytes.{node_of_fields, IsNodeAt};

    ghost Value = { NodeData };

    ghost view = { λ n. node_of_fields n.version n.bytes.now n.key n.need n.exit n.points.now };

    ghost invariant = { λ n. IsNodeAt n.version n.bytes.now n.exit n.points.now };
}

impl<'a> Node<'a> {
    ghost use Rattle.depth_cert.specs.Points.{AreAscendingPoints, find_point};

    /// Returns the node of a certificate of format `version` with this key, need and byte offsets.
    pub(crate) fn new(bytes: &'a [u8], version: u8, places: &'a NodePlaces) -> Node<'a>
        requires { AreNodePlaces version bytes.now places.now }
        ensures { result ≡ node_in_bytes version bytes.now places.now }
    {
        Node {
            bytes,
            version,
            key: places.key,
            need: places.need,
            exit: places.exit,
            points: places.points.as_slice(),
            near: 0,
        }
    }

    /// Returns this node with a hint: a look-up of a point tries the point with index `near` first.
    pub fn with_hint(&self, near: usize) -> Node<'a>
        ensures { result ≡ self.now }
    {
        Node {
            bytes: self.bytes,
            version: self.version,
            key: self.key,
            need: self.need,
            exit: self.exit,
            points: self.points,
            near,
        }
    }

    /// Returns the exit of this node of a certificate, or `None` if the node has none.
    pub fn exit(&self) -> Option<ExitAt<'a>>
        ensures { result ≡ self.now.exit }
    {
        match self.exit {
            Some(place) => Some(ExitAt::new(self.bytes, self.version, place as usize)),
            None => None,
        }
    }

    /// Returns the number of points of this node of a certificate.
    pub fn len(&self) -> usize
        ensures { result ≡ length self.now.points }
    {
        self.points.len()
    }

    /// Resets `walk` to before the first of this node's points, which ascend by address.
    pub fn start_walk(&self, walk: &mut PointWalk<'a>)
        ensures all { walk.new.left ≡ self.now.points }
        ensures points { walk.new.points ≡ self.now.points }
        ensures rising { AreAscendingPoints self.now.points }
    {
        walk.restart(self.bytes, self.version, self.points);
    }

    /// Returns the state of this node's point at an address, or `None` if there is no point.
    pub fn point(&self, addr: u32) -> Option<StateAt<'a>>
        ensures { result ≡ option_map (λ p. p.state) (find_point addr self.now.points) }
    {
        let points = self.points;
        let at = count_points_below(points, addr, self.near);
        if at < points.len() && points[at].addr == addr {
            let place = points[at].place as usize;
            return Some(StateAt::new(self.bytes, self.version, place));
        }
        None
    }
}

/// Returns the number of points whose addresses are below `addr`. The points with index `near` and
/// `near + 1` are tried first, then a guess, then a binary search.
pub(crate) fn count_points_below(points: &[PointPlace], addr: u32, near: usize) -> usize
    requires { AscendByAddress points.now }
    ensures { IsCountOfPointsBelow addr points.now result }
{
    if near < points.len() && points[near].addr == addr {
        return near;
    }
    let after = near.wrapping_add(1);
    if after < points.len() && points[after].addr == addr {
        return after;
    }
    let far = guessed_point_index(points, addr, near);
    if far < points.len() && points[far].addr == addr {
        return far;
    }
    points.partition_point(|p| is_node_point_below(p, addr))
}

/// Guesses the index of the point at `addr` from that of the point at index `near`, as if each
/// instruction had four bytes. A wrong guess costs a binary search.
fn guessed_point_index(points: &[PointPlace], addr: u32, near: usize) -> usize {
    if near >= points.len() {
        return near;
    }
    let from = points[near].addr;
    if addr < from {
        near.wrapping_sub((from - addr) as usize / 4)
    } else {
        near.wrapping_add((addr - from) as usize / 4)
    }
}

/// Returns true if the address of this point of a certificate's node is below `addr`.
fn is_node_point_below(point: &PointPlace, addr: u32) -> bool
    ensures { result ≡ nat_lt point.now.addr addr }
{
    point.addr < addr
}
