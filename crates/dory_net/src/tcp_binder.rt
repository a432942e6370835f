//! The sockets of this machine, as a binder.
ghost use Rattle.std.specs.Prelude.{◌≡◌, None};
ghost use Rattle.dory_io.specs.Given.{IsBoundFor};

use crate::tcp_port::TcpPort;
use dory_io::{Address, Binder, Failed, Fails};
use std::alloc::Global;
use std::io;
use std::io::ErrorKind;
use std::net::{IpAddr, Ipv4Addr, Net, SocketAddr, TcpListener, TcpStream};

/// Binds at most one address, and counts its failures.
#[derive(Drop)]
pub struct TcpBinder<'a, R> {
    rt: &'a R,
    alloc: Global,
    listener: Option<TcpListener>,
    fails: Fails,
}

impl<'a, R: Net<Listener = TcpListener, Stream = TcpStream>> TcpBinder<'a, R> {
    /// A binder that has bound nothing and not failed.
    pub fn new(rt: &'a R, alloc: Global) -> TcpBinder<'a, R>
        ensures { result.fails.faults ≡ 0 }
    {
        TcpBinder {
            rt,
            alloc,
            listener: None,
            fails: Fails::new(Vec::new(alloc)),
        }
    }
}

/// An address as the system takes it.
pub fn socket_address(address: &Address) -> SocketAddr {
    SocketAddr::new(IpAddr::V4(Ipv4Addr::from_octets(address.ip)), address.port)
}

/// An address as the system gives it, if it is one of IPv4.
fn ipv4_address(address: SocketAddr) -> Option<Address> {
    match address.ip() {
        IpAddr::V4(ip) => Some(Address {
            ip: ip.octets(),
            port: address.port(),
        }),
        IpAddr::V6(_) => None,
    }
}

/// A socket that listens, and the address that it has.
fn listen<R: Net<Listener = TcpListener, Stream = TcpStream>>(
    rt: &R,
    address: &Address,
) -> io::Result<(TcpListener, Option<Address>)> {
    let listener = TcpListener::bind(rt, socket_address(address))?;
    let bound = ipv4_address(listener.local_addr()?);
    Ok((listener, bound))
}

impl<'a, R: Net<Listener = TcpListener, Stream = TcpStream>> Binder for TcpBinder<'a, R> {
    type Door = TcpPort;

    ghost bound = { λ _. None };

    ghost faults = { λ b. b.fails.faults };

    fn bind(&mut self, address: &Address) -> Result<Address, Failed> {
        match listen(self.rt, address) {
            Ok((listener, Some(bound))) if bound.is_for(address) => {
                self.listener = Some(listener);
                Ok(bound)
            }
            _ => {
                self.fails.count();
                Err(Failed)
            }
        }
    }

    fn port(&mut self) -> Result<TcpPort, Failed> {
        let made = match &self.listener {
            Some(listener) => listener.try_clone(),
            None => Err(io::Error::from(ErrorKind::NotConnected)),
        };
        match made {
            Ok(listener) => Ok(TcpPort::new(self.alloc, listener)),
            Err(_) => {
                self.fails.count();
                Err(Failed)
            }
        }
    }
}
