//! A registration over loopback, through the program's own listeners.
ghost use Rattle.std.specs.Prelude.{◌≡◌, ◌≤◌, ◌+◌, ◌-◌, ◌^◌, None, min, sum_by};

use exit_status::Status;
use harness_serve::{NOTHING, POLLING, given_with, has_bytes, requests_of, run_over};
use io_edge::{Door, Doors, EdgeFault};
use memory_edge::MemoryPause;
use std::alloc::Global;
use std::io::{Read, Write};
use std::net::{Net, Shutdown, SocketAddr, TcpListener, TcpStream};
use std::sync::{Arc, Mutex, Wait};
use std::test::Fail;
use std::thread;
use std::thread::Threads;
use std::time::{Clock, Duration};
use tail_base::NoMemory;
use tcp_edge::{TcpDoor, TcpDoors};

/// Where the system let it listen.
type Listening = Mutex<Option<SocketAddr>>;

/// Listeners that say where they listen.
#[derive(Drop)]
struct NotingDoors<R> {
    rt: R,
    doors: TcpDoors<R>,
    at: Arc<Listening, Global>,
}

impl<R: Net<Listener = TcpListener, Stream = TcpStream> + Wait + Clock + Copy + Send> Doors
    for NotingDoors<R> {
    type Door = TcpDoor<R>;

    ghost coming = { λ _. None };

    ghost finished = { λ _. None };

    ghost asked = { λ _. None };

    ghost faults = { λ d. ⟦<TcpDoors<R> as Doors>⟧.faults d.doors };

    fn open(
        &mut self,
        alloc: Global,
        address: &str,
        count: u32,
    ) -> Result<Vec<TcpDoor<R>>, EdgeFault> {
        let opened = self.doors.open(alloc, address, count)?;
        if let Some(door) = opened.first() {
            *self.at.lock(&self.rt) = door.address();
        }
        Ok(opened)
    }

    fn close(&mut self, doors: Vec<TcpDoor<R>>)
        ensures faults { ⟦<NotingDoors<R> as Doors>⟧.faults self.new
            ≡ min (⟦<NotingDoors<R> as Doors>⟧.faults self.old
            + sum_by (λ d. ⟦<TcpDoor<R> as Door>⟧.faults d) doors.items) (2 ^ 64 - 1) }
        ensures later { ⟦<NotingDoors<R> as Doors>⟧.faults self.old
            ≤ ⟦<NotingDoors<R> as Doors>⟧.faults self.new }
    {
        self.doors.close(doors);
    }
}

/// The status of a server that takes one connection.
fn serve_once<
    R: Net<Listener = TcpListener, Stream = TcpStream>
        + Threads
        + Wait
        + Clock
        + Copy
        + Send
        + Sync,
>(rt: R, alloc: Global, at: Arc<Listening, Global>) -> Result<Status, NoMemory> {
    let mut doors = NotingDoors {
        rt,
        doors: TcpDoors::new(rt),
        at,
    };
    let lines = b"workers = 1\nconnections = 1\npoll_turns = 1\nlisten = \"127.0.0.1:0\"\n";
    let mut given = given_with(alloc, lines, &NOTHING)?;
    Ok(run_over(&rt, alloc, &mut given, &mut doors, &MemoryPause::new()))
}

/// Waits, ten seconds at most, until the server listens.
fn address_of<R: Wait + Clock>(rt: &R, at: &Listening) -> Option<SocketAddr> {
    for _ in 0..200 {
        let found = *at.lock(rt);
        if found.is_some() {
            return found;
        }
        thread::sleep(rt, Duration::from_millis(50));
    }
    None
}

/// What a client is answered that asks this, and then ends what it sends.
fn asked<R: Net<Listener = TcpListener, Stream = TcpStream> + Wait + Clock>(
    rt: &R,
    alloc: Global,
    at: &Listening,
    request: &[u8],
) -> Option<Vec<u8>> {
    let mut client = TcpStream::connect(rt, address_of(rt, at)?).ok()?;
    client.write_all(request).ok()?;
    client.shutdown(Shutdown::Write).ok()?;
    let mut answers = Vec::new(alloc);
    client.read_to_end(&mut answers).ok()?;
    Some(answers)
}

/// What the requests of a machine that registers and polls are answered, once the server has ended well.
fn answers<
    R: Net<Listener = TcpListener, Stream = TcpStream>
        + Threads
        + Wait
        + Clock
        + Copy
        + Send
        + Sync,
>(rt: R, alloc: Global, request: &[u8]) -> Result<Vec<u8>, Fail> {
    let at: Arc<Listening, Global> = Arc::new(alloc, Mutex::new(None))?;
    let given = Arc::try_clone(&at)?;
    let (status, answers) = thread::join(
        &rt,
        || serve_once(rt, alloc, given),
        || asked(&rt, alloc, &at, request),
    );
    if status? == Status::Ok {
        Ok(answers.ok_or("no answers")?)
    } else {
        Err(Fail::from("the server doesn't end well"))
    }
}

#[test]
fn a_machine_registers_and_polls_over_loopback(rt: HostRuntime) -> Result<(), Fail> {
    let request = requests_of(rt.alloc(), POLLING)?;
    let answers = answers(rt, rt.alloc(), &request)?;
    let is_registered = has_bytes(&answers, b"\"MachineAuthorized\":true");
    assert!(rt;
        is_registered && has_bytes(&answers, b"\"MapSessionHandle\":\"s1-0000000000000001\"")
    );
    Ok(())
}
