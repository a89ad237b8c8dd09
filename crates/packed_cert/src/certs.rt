// The type `Cert`: a certificate that stays on the bytes of its file.
ghost use Rattle.std.specs.Prelude.{◌≡◌, ◌≤◌, ◌<◌, ◌^◌, ℕ, nat_lt, length, slice_index, Ok, IfOk, IfErr, IfSome, IsTrue};
ghost use Rattle.std.specs.List.{All, slice_get};
ghost use Rattle.depth_cert.specs.declared.errors.CertErr.TheVariants.{NoMemory};
ghost use Rattle.depth_cert.specs.Answers.{IsFaultOf};
ghost use Rattle.packed_cert.specs.NodesInBytes.{AreNodePlaces, AscendByKey, IsCountOfNodesBelow, count_node_points};
ghost use Rattle.packed_cert.specs.EnteredAlike.{HasEntryAndExitAt};

use crate::cert_reader::read_cert_data;
use crate::nodes::{Node, count_points_below};
use crate::places::NodePlaces;
use depth_cert::{CertErr, Key, key_number};
use std::alloc::Global;
use std::marker::Model;

/// A certificate that stays on the bytes of its file.
#[derive(Drop)]
pub struct Cert {
    bytes: Vec<u8>,
    version: u8,
    nodes: Vec<NodePlaces>,
}

impl Model for Cert {
    ghost use Rattle.depth_cert.specs.Certs.{CertData};

    ghost Value = { CertData };

    ghost use Rattle.packed_cert.specs.NodesInBytes.{cert_in_bytes, IsCertAt};

    ghost view = { λ c. cert_in_bytes c.version c.bytes.items c.nodes.items };

    ghost invariant = { λ c. IsCertAt c.version c.bytes.items c.nodes.items };
}

impl Cert {
    ghost use Rattle.depth_cert.specs.Certs.{IsCert};
    ghost use Rattle.depth_cert.specs.Nodes.{find_node, count_points};
    ghost use Rattle.depth_cert.specs.Grammar.{certificate_of};
    ghost use Rattle.depth_cert.specs.Spelling.{bytes_of_cert};
    ghost use Rattle.packed_cert.specs.EnteredAlike.{HaveSameEntryAndExit};

    /// Parses a certificate, and keeps the bytes with the offsets of the exits and states in them.
    /// An error is the first fault of the bytes, or `NoMemory`.
    pub fn read(alloc: Global, bytes: Vec<u8>) -> Result<Cert, CertErr>
        requires { length bytes.items ≤ 2 ^ 30 }
        ensures ok { IfOk result (λ c. certificate_of bytes.items ≡ Ok c) }
        ensures err { IfErr result (IsFaultOf (certificate_of bytes.items)) }

        // No other bytes spell it.
        ensures one { IfOk result (λ c. bytes_of_cert c ≡ bytes.items) }
    {
        let (version, nodes) = read_cert_data(alloc, &bytes)?;
        cert_bytes_below_256(&bytes);
        Ok(Cert {
            bytes,
            version,
            nodes,
        })
    }

    /// Returns the bytes that spell the certificate: at most 1,073,741,824, or `NoMemory`.
    pub fn write(&self, alloc: Global) -> Result<Vec<u8>, CertErr>
        ensures ok { IfOk result (λ out. out.items ≡ bytes_of_cert self.now) }
        ensures small { IfOk result (λ out. length out.items ≤ 2 ^ 30) }
        ensures err { IfErr result (λ e. e ≡ NoMemory) }

        // These bytes are read back as this certificate.
        ensures back { IfOk result (λ out. certificate_of out.items ≡ Ok self.now) }
    {
        match Vec::from_slice(alloc, self.bytes.as_slice()) {
            Ok(out) => Ok(out),
            Err(_) => Err(CertErr::NoMemory),
        }
    }

    /// Consumes the certificate and returns the bytes that spell it.
    pub fn into_bytes(self) -> Vec<u8>
        ensures { result.items ≡ bytes_of_cert self }
    {
        self.bytes
    }

    /// Returns the format: 1 (at most 64 words in a Set, 4 saved lower contexts), or 2 (128, 8).
    pub fn version(&self) -> u8
        ensures version { result ≡ self.now.version }
        ensures limits { IsCert self.now }
    {
        self.version
    }

    /// Returns the number of a certificate's nodes.
    pub fn len(&self) -> usize
        ensures { result ≡ length self.now.nodes }
    {
        self.nodes.len()
    }

    /// Returns the number of points that all nodes of a certificate have together.
    pub fn count_points(&self) -> usize
        ensures { result ≡ count_points self.now.nodes }
    {
        count_points_of_nodes(&self.nodes)
    }

    /// Returns the node of a certificate at an index, or `None` if the index is past the last.
    pub fn get(&self, index: usize) -> Option<Node<'_>>
        ensures { result ≡ slice_get self.now.nodes index }
    {
        if index < self.nodes.len() {
            return Some(Node::new(self.bytes.as_slice(), self.version, &self.nodes[index]));
        }
        None
    }

    /// Returns the node of a certificate that has this key, or `None` if there is none.
    pub fn node(&self, key: &Key) -> Option<Node<'_>>
        ensures { result ≡ find_node key.now self.now.nodes }
    {
        let nodes = self.nodes.as_slice();
        let number = key_number(key);
        let at = count_nodes_below(nodes, number);
        if at < nodes.len() && nodes[at].number == number {
            return Some(Node::new(self.bytes.as_slice(), self.version, &nodes[at]));
        }
        None
    }

    /// Returns true only if the nodes of two keys have the same state at their entries, and the
    /// same exit. Byte offsets are compared, not values, so two that are equal may give false.
    pub fn have_same_entry_and_exit(&self, a: &Key, b: &Key) -> bool
        ensures { IsTrue result → HaveSameEntryAndExit self.now.nodes a.now b.now }
    {
        let bytes = self.bytes.as_slice();
        let nodes = self.nodes.as_slice();
        let Some(one) = entry_and_exit_offsets(bytes, self.version, nodes, a) else {
            return false;
        };
        let Some(two) = entry_and_exit_offsets(bytes, self.version, nodes, b) else {
            return false;
        };
        one.0 == two.0 && one.1 == two.1
    }
}

/// Returns the byte offsets of the state at a key's entry address and of the node's exit, if any.
/// `None` without such a node or point. `bytes` and `version` are for the contract.
fn entry_and_exit_offsets(
    bytes: &[u8],
    version: u8,
    nodes: &[NodePlaces],
    key: &Key,
) -> Option<(u32, Option<u32>)>
    requires places { All (AreNodePlaces version bytes.now) nodes.now }
    requires rising { AscendByKey nodes.now }
    ensures { IfSome result (λ r. HasEntryAndExitAt version bytes.now nodes.now key.now r.0 r.1) }
{
    let number = key_number(key);
    let at = count_nodes_below(nodes, number);
    if at >= nodes.len() || nodes[at].number != number {
        return None;
    }
    let node = &nodes[at];
    let points = node.points.as_slice();
    let first = count_points_below(points, key.entry, 0);
    if first >= points.len() || points[first].addr != key.entry {
        return None;
    }
    Some((points[first].place, node.exit))
}

/// A fact for proofs, no code: each byte of a certificate is below 256, as its type says.
pub(crate) fn cert_bytes_below_256(bytes: &[u8])
    ensures { (k : ℕ) → slice_index bytes.now k < 2 ^ 8 }
{}

/// Returns the number of points that the nodes of a `Cert` have together.
fn count_points_of_nodes(nodes: &[NodePlaces]) -> usize
    requires { count_node_points nodes.now ≤ 2 ^ 16 }
    ensures { result ≡ count_node_points nodes.now }
{
    let mut total = 0;
    for node in nodes {
        total += node.points.len();
    }
    total
}

/// Returns how many nodes of a certificate have keys below the key whose number is `number`. The
/// nodes ascend by key, so a binary search finds the count.
fn count_nodes_below(nodes: &[NodePlaces], number: u64) -> usize
    requires { AscendByKey nodes.now }
    ensures { IsCountOfNodesBelow number nodes.now result }
{
    nodes.partition_point(|n| is_cert_node_below(n, number))
}

/// Returns true if the key of a certificate's node is below the key whose number is `number`.
fn is_cert_node_below(node: &NodePlaces, number: u64) -> bool
    ensures { result ≡ nat_lt node.now.number number }
{
    node.number < number
}
