//! Connections of this machine, made and written to by clients before any is accepted.
use crate::comparing::{assert_is, assert_reads_at};
use crate::front::example::on_one_product;
use clock_fixtures::{ACCEPTED, CUT_SHORT, FIRST_ROUND, PUT, STATUS};
use clock_server::serve_on;
use std::alloc::Global;
use std::io::{Read, Write};
use std::net::{Ipv4Addr, Shutdown, SocketAddr, TcpListener, TcpStream};
use std::process::Abort;

/// A port of this machine that the system chooses.
fn any_port(rt: &impl Abort, net: &HostRuntime) -> TcpListener {
    TcpListener::bind(net, (Ipv4Addr::LOCALHOST, 0)).expect(rt, "a port")
}

/// The address of a port.
fn address_of(rt: &impl Abort, listener: &TcpListener) -> SocketAddr {
    listener.local_addr().expect(rt, "an address")
}

/// A client that has written this text.
fn client(rt: &impl Abort, net: &HostRuntime, address: SocketAddr, text: &str) -> TcpStream {
    let mut stream = TcpStream::connect(net, address).expect(rt, "a connection");
    stream.write_all(text.as_bytes()).expect(rt, "a text");
    stream
}

/// A client that has written a part of a sheet, and writes no more.
fn cut_client(rt: &impl Abort, net: &HostRuntime, address: SocketAddr) -> TcpStream {
    let stream = client(rt, net, address, &PUT[..10]);
    stream.shutdown(Shutdown::Write).expect(rt, "an end");
    stream
}

/// Asserts that a client receives this text and no more.
fn assert_hears(rt: &(impl Abort + Alloc<A = Global>), mut stream: TcpStream, reply: &str) {
    let mut bytes = Vec::new(rt.alloc());
    stream.read_to_end(&mut bytes).expect(rt, "a reply");
    drop(stream);
    assert_reads_at(rt, "received", bytes.as_slice(), reply);
}

/// Serves three connections by an auction of one product, and closes the port.
fn serve_three(rt: &(impl Abort + Alloc<A = Global>), listener: TcpListener) {
    let is_served = on_one_product(rt, rt.alloc(), |front| {
        serve_on(rt.alloc(), front, &listener, 3).is_ok()
    });
    drop(listener);
    assert_is(rt, is_served, true);
}

#[test]
fn connections_are_served_in_turn(rt: HostRuntime) {
    let listener = any_port(&rt, &rt);
    let address = address_of(&rt, &listener);
    let whole = client(&rt, &rt, address, PUT);
    let cut = cut_client(&rt, &rt, address);
    let status = client(&rt, &rt, address, STATUS);
    serve_three(&rt, listener);
    assert_hears(&rt, whole, ACCEPTED);
    assert_hears(&rt, cut, CUT_SHORT);
    assert_hears(&rt, status, FIRST_ROUND);
}

/// Two clients are gone before they are served, and one requests the status.
#[test]
fn a_client_that_is_gone_ends_alone(rt: HostRuntime) {
    let listener = any_port(&rt, &rt);
    let address = address_of(&rt, &listener);
    drop(client(&rt, &rt, address, PUT));
    drop(client(&rt, &rt, address, &PUT[..10]));
    let status = client(&rt, &rt, address, STATUS);
    serve_three(&rt, listener);
    assert_hears(&rt, status, FIRST_ROUND);
}
