//! The objects outside, and their types.

ghost use Rattle.worlds.specs.Worlds.{Ways, types_of};

use edge_io::{Clock, Disk, Entropy, Sink, Source};
use keeper_api::Keeper;
use links::Peer;
use std::marker::PhantomData;

/// Which types the objects outside have.
pub trait Objects {
    type Source: Source;

    type Sink: Sink;

    type FaultsOut: Sink;

    type Keeper: Keeper;

    type Disk: Disk;

    type Entropy: Entropy;

    type Clock: Clock;

    type Peer: Peer;

    /// How each tells what it holds; not of the sink for faults, which no command is judged by.
    ghost ways: { Ways (types_of Self.Source Self.Sink Self.Keeper Self.Disk Self.Entropy Self.Clock Self.Peer) };
}

/// Where the input comes from, where the answer and the refusals go, the store, the key file, where random bytes come
/// from, the time, and a program to which something may be sent.
#[derive(Drop)]
pub struct Outside<S, K, F, R, D, E, C, P> {
    pub source: S,
    pub sink: K,
    pub faults_out: F,
    pub keeper: R,
    pub disk: D,
    pub entropy: E,
    pub clock: C,
    pub peer: P,
}

/// These types, one by one. There is no value of it to be had.
pub struct Kinds<S, K, F, R, D, E, C, P> {
    of: PhantomData<(S, K, F, R, D, E, C, P)>,
}

impl<S: Source, K: Sink, F: Sink, R: Keeper, D: Disk, E: Entropy, C: Clock, P: Peer> Objects
    for Kinds<S, K, F, R, D, E, C, P> {
    type Source = S;

    type Sink = K;

    type FaultsOut = F;

    type Keeper = R;

    type Disk = D;

    type Entropy = E;

    type Clock = C;

    type Peer = P;

    ghost ways = { record {
      source = S.Source;
      sink = K.Sink;
      keeper = R.Keeper;
      disk = D.Disk;
      entropy = E.Entropy;
      clock = C.Clock;
      peer = P.Peer;
    } };
}

/// The types of these, one by one.
pub type Of<W> = Kinds<
    <W as Objects>::Source,
    <W as Objects>::Sink,
    <W as Objects>::FaultsOut,
    <W as Objects>::Keeper,
    <W as Objects>::Disk,
    <W as Objects>::Entropy,
    <W as Objects>::Clock,
    <W as Objects>::Peer,
>;

/// The objects outside, of these types.
pub type Lent<W> = Outside<
    <W as Objects>::Source,
    <W as Objects>::Sink,
    <W as Objects>::FaultsOut,
    <W as Objects>::Keeper,
    <W as Objects>::Disk,
    <W as Objects>::Entropy,
    <W as Objects>::Clock,
    <W as Objects>::Peer,
>;
