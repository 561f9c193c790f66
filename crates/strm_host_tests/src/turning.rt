//! A value that is sent later, polled by itself.

use crate::answers::is;
use strm_buffers::answers::Turn;
use strm_host::futures::FutureProducer;
use strm_host::turning::Turning;

#[test]
fn a_value_that_was_sent_is_given_either_way(rt: HostRuntime) {
    let mut turning = Turning::ready(7u8);
    is(&rt, turning.poll_produce(false), Turn::Ready(Some(7)));
    let mut turning = Turning::ready(8u8);
    is(&rt, turning.poll_produce(true), Turn::Ready(Some(8)));
}

#[test]
fn a_value_is_waited_for_and_then_given_once(rt: HostRuntime) {
    let mut turning = Turning::pending();
    is(&rt, turning.poll_produce(false), Turn::Pending);
    is(&rt, turning.poll_produce(true), Turn::Ready(None));
    is(&rt, turning.send(7u8), Ok(()));
    is(&rt, turning.send(8), Err(8));
    is(&rt, turning.poll_produce(false), Turn::Ready(Some(7)));
    is(&rt, turning.poll_produce(false), Turn::Failed);
    is(&rt, turning.send(9), Err(9));
}

#[test]
fn a_lost_value_fails_either_way(rt: HostRuntime) {
    let mut turning: Turning<u8> = Turning::pending();
    turning.lose();
    is(&rt, turning.poll_produce(false), Turn::Failed);
    is(&rt, turning.poll_produce(true), Turn::Failed);
    let mut turning = Turning::ready(7u8);
    turning.lose();
    is(&rt, turning.poll_produce(false), Turn::Failed);
}
