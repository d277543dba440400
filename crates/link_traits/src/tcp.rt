//! Links over TCP. They tell nothing of their bytes: this is the trusted edge.
ghost use Rattle.std.specs.Prelude.{◌≡◌, None, IfOk, OnOk, OnErr, IsSome, IsErr};
ghost use Rattle.std.specs.Option.{is_none};
ghost use Rattle.link_traits.specs.Dials.{Binds, IsAccepted, Accepts};
ghost use Rattle.link_traits.specs.Standard.{silent_link, silent_dial, silent_listen};

use crate::dial::Dial;
use crate::listen::Listen;
use crate::stream::{StreamLink, fail};
use outside_traits::{Failed, StdSink, StdSource};
use std::io;
use std::io::ErrorKind;
use std::net::{Net, TcpListener, TcpStream};

/// A link over a connection: one handle of it is read and another is written. A call that a signal interrupts is made
/// again. What a peer that hung up sent before is read to its end.
pub type TcpLink = StreamLink<StdSource<TcpStream>, StdSink<TcpStream>>;

// The link over this connection. A peer waits for each message, so none is held back to be sent with a later one.
fn link_over(stream: TcpStream) -> io::Result<TcpLink>
    ensures open { IfOk result (λ link. (IsSome link.streams) × (link.faults ≡ 0)) }
{
    let _slower_without = stream.set_nodelay(true);
    let writer = stream.try_clone()?;
    Ok(StreamLink::new(StdSource::new(stream), StdSink::new(writer)))
}

/// Dials over TCP. What can't be read or found as an address, refuses the connection or can't be reached is a fault.
#[derive(Drop)]
pub struct TcpDial<N: Net<Stream = TcpStream, Listener = TcpListener>> {
    net: N,
    faults: u64,
}

impl<N: Net<Stream = TcpStream, Listener = TcpListener>> TcpDial<N> {
    /// A dial that made no call.
    pub fn new(net: N) -> TcpDial<N>
        ensures faults { result.faults ≡ 0 }
    {
        TcpDial { net, faults: 0 }
    }

    fn connect(&self, address: &str) -> io::Result<TcpLink>
        ensures open { IfOk result (λ link. (IsSome link.streams) × (link.faults ≡ 0)) }
    {
        link_over(TcpStream::connect(&self.net, address)?)
    }
}

impl<N: Net<Stream = TcpStream, Listener = TcpListener>> Dial for TcpDial<N> {
    type Link = TcpLink;

    ghost dial = { λ dial. silent_dial dial.faults };

    fn dial(&mut self, address: &str) -> Result<TcpLink, Failed> {
        match self.connect(address) {
            Ok(link) => Ok(link),
            Err(_) => Err(fail(&mut self.faults)),
        }
    }

    fn hang_up(&mut self, link: TcpLink) {
        if link.has_risen() {
            fail(&mut self.faults);
        }
    }
}

/// Listens over TCP. An address that can't be bound, an accepting before it is bound, and one that the system refuses are
/// faults.
#[derive(Drop)]
pub struct TcpListen<N: Net<Stream = TcpStream, Listener = TcpListener>> {
    net: N,
    listener: Option<TcpListener>,
    faults: u64,
}

impl<N: Net<Stream = TcpStream, Listener = TcpListener>> TcpListen<N> {
    /// A listen that isn't bound.
    pub fn new(net: N) -> TcpListen<N>
        ensures unbound { result.listener ≡ None }
        ensures faults { result.faults ≡ 0 }
    {
        TcpListen {
            net,
            listener: None,
            faults: 0,
        }
    }
}

// The next connection. Those that their peers gave up before are passed over: no peer is to end the listening.
fn accept_next(listener: &TcpListener) -> io::Result<TcpLink>
    ensures open { IfOk result (λ link. (IsSome link.streams) × (link.faults ≡ 0)) }
{
    for _ in 0..u64::MAX {
        match listener.accept() {
            Ok((stream, _)) => return link_over(stream),
            Err(error) if error.kind() == ErrorKind::ConnectionAborted => {}
            Err(error) => return Err(error),
        }
    }
    Err(ErrorKind::ConnectionAborted.into())
}

impl<N: Net<Stream = TcpStream, Listener = TcpListener>> Listen for TcpListen<N> {
    type Link = TcpLink;

    ghost listen = { λ listen. silent_listen listen.faults };

    fn bind(&mut self, address: &str) -> Result<(), Failed>
        ensures binds { Binds (silent_listen self.old.faults) (silent_listen self.new.faults) address.now result }
        ensures listener { OnOk result (IsSome self.new.listener) }
        ensures same { OnErr result (self.new.listener ≡ self.old.listener) }
    {
        match TcpListener::bind(&self.net, address) {
            Ok(listener) => {
                self.listener = Some(listener);
                Ok(())
            }
            Err(_) => Err(fail(&mut self.faults)),
        }
    }

    fn accept(&mut self) -> Result<TcpLink, Failed>
        ensures link { IfOk result (λ link. IsAccepted (silent_listen self.old.faults)
            (silent_link (is_none link.streams) link.faults)) }
        ensures accepts { Accepts (silent_listen self.old.faults) (silent_listen self.new.faults) result }
        ensures unbound { self.old.listener ≡ None → IsErr result }
        ensures listener { self.new.listener ≡ self.old.listener }
    {
        if let Some(listener) = &self.listener {
            if let Ok(link) = accept_next(listener) {
                return Ok(link);
            }
        }
        Err(fail(&mut self.faults))
    }

    fn hang_up(&mut self, link: TcpLink) {}
}
