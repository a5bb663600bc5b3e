//! Full tables of each kind, and what ends with an instance.

use crate::openings::{open, open_as};
use app_api::{Login, Properties};
use instances::{Admission, Instances, Refusal, SessionFacts, SessionState};
use std::test::Fail;
use tee_base::{Code, Origin};

const OWN: Properties = Properties {
    single: false,
    multi: true,
    keep: true,
};

const SHARED: Properties = Properties {
    single: true,
    multi: true,
    keep: false,
};

const ALONE: Properties = Properties {
    single: true,
    multi: false,
    keep: true,
};

const BUSY: Refusal = Refusal {
    code: Code::BUSY,
    origin: Origin::Tee,
};

const LABEL_IN_USE: Refusal = Refusal {
    code: Code::BAD_STATE,
    origin: Origin::Api,
};

fn admitted(session: u8, instance: u8, new_instance: bool) -> Result<Admission, Refusal> {
    Ok(Admission {
        session,
        instance,
        new_instance,
    })
}

/// Sets the state of the session that the client knows by this label.
fn change(instances: &mut Instances, client: u8, label: u32, state: SessionState) {
    if let Some(facts) = instances.find(client, label) {
        instances.set(facts.session, state);
    }
}

/// Removes the session that the client knows by this label.
fn close(instances: &mut Instances, client: u8, label: u32) {
    if let Some(facts) = instances.find(client, label) {
        instances.remove(facts.session);
    }
}

fn destroy(instances: &mut Instances, instance: u8) {
    if instances.exists(instance) {
        instances.begin_destroy(instance);
    }
}

fn facts(session: u8, instance: u8, state: SessionState) -> Option<SessionFacts> {
    Some(SessionFacts {
        session,
        instance,
        state,
    })
}

#[test]
fn four_instances_of_their_own(rt: HostRuntime) -> Result<(), Fail> {
    let mut instances = Instances::new(OWN);
    assert!(rt; open(&mut instances, 0, 7) == admitted(1, 1, true));
    assert!(rt; open(&mut instances, 0, 8) == admitted(2, 2, true));
    assert!(rt; open(&mut instances, 1, 7) == admitted(3, 3, true));
    assert!(rt; open(&mut instances, 0, 7) == Err(LABEL_IN_USE));
    assert!(rt; open(&mut instances, 2, 7) == admitted(4, 4, true));
    assert!(rt; open(&mut instances, 3, 7) == Err(BUSY));
    instances.end(2);
    assert!(rt; !instances.exists(2));
    assert!(rt; instances.is_left(2));
    assert!(rt; !instances.is_left(1));
    assert!(rt; instances.find(0, 8) == None);
    assert!(rt; open(&mut instances, 3, 7) == admitted(2, 2, true));
    Ok(())
}

#[test]
fn eight_sessions_of_one_instance(rt: HostRuntime) -> Result<(), Fail> {
    let mut instances = Instances::new(SHARED);
    assert!(rt; open(&mut instances, 0, 0) == admitted(1, 1, true));
    for label in 1..8u8 {
        assert!(rt; open(&mut instances, 0, u32::from(label)) == admitted(label + 1, 1, false));
    }
    assert!(rt; open(&mut instances, 0, 8) == Err(BUSY));
    close(&mut instances, 0, 4);
    assert!(rt; open(&mut instances, 5, 8) == admitted(5, 1, false));
    destroy(&mut instances, 1);
    close(&mut instances, 0, 0);
    assert!(rt; open(&mut instances, 5, 9) == Err(BUSY));
    instances.bounds();
    Ok(())
}

#[test]
fn dead_sessions_count_towards_eight(rt: HostRuntime) -> Result<(), Fail> {
    let mut instances = Instances::new(SHARED);
    for label in 0..8u8 {
        assert!(rt; open(&mut instances, 0, u32::from(label)).is_ok());
        change(&mut instances, 0, u32::from(label), SessionState::Open);
    }
    instances.end(1);
    assert!(rt; !instances.has_session(1));
    assert!(rt; instances.find(0, 3) == facts(4, 1, SessionState::Dead));
    assert!(rt; open(&mut instances, 1, 0) == Err(BUSY));
    close(&mut instances, 0, 3);
    assert!(rt; open(&mut instances, 1, 0) == admitted(4, 1, true));
    Ok(())
}

#[test]
fn one_session_of_one_instance(rt: HostRuntime) -> Result<(), Fail> {
    let mut instances = Instances::new(ALONE);
    assert!(rt; open(&mut instances, 0, 0) == admitted(1, 1, true));
    assert!(rt; instances.exists(1));
    assert!(rt; instances.has_session(1));
    assert!(rt; open(&mut instances, 1, 0) == Err(BUSY));
    close(&mut instances, 0, 0);
    assert!(rt; !instances.has_session(1));
    assert!(rt; !instances.is_left(1));
    assert!(rt; open(&mut instances, 1, 0) == admitted(1, 1, false));
    instances.reset();
    assert!(rt; !instances.exists(1));
    assert!(rt; instances.find(1, 0) == None);
    assert!(rt; open(&mut instances, 1, 0) == admitted(1, 1, true));
    Ok(())
}

#[test]
fn what_ends_with_an_instance(rt: HostRuntime) -> Result<(), Fail> {
    let mut instances = Instances::new(SHARED);
    for label in 0..3u8 {
        assert!(rt; open(&mut instances, 0, u32::from(label)).is_ok());
    }
    change(&mut instances, 0, 1, SessionState::Open);
    change(&mut instances, 0, 2, SessionState::Closing);
    assert!(rt; instances.find(0, 0) == facts(1, 1, SessionState::Opening));
    instances.end(1);
    assert!(rt; instances.find(0, 0) == None);
    assert!(rt; instances.find(0, 1) == facts(2, 1, SessionState::Dead));
    assert!(rt; instances.find(0, 2) == None);
    Ok(())
}

#[test]
fn sessions_keep_their_logins(rt: HostRuntime) -> Result<(), Fail> {
    let mut instances = Instances::new(SHARED);
    assert!(rt; open_as(&mut instances, 0, 0, &Login::User(1000)).is_ok());
    assert!(rt; open_as(&mut instances, 0, 1, &Login::Group(100)).is_ok());
    assert!(rt; open(&mut instances, 1, 0).is_ok());
    assert!(rt; instances.login(1) == Some(Login::User(1000)));
    assert!(rt; instances.login(2) == Some(Login::Group(100)));
    assert!(rt; instances.login(3) == Some(Login::Public));
    assert!(rt; instances.login(4) == None);
    close(&mut instances, 0, 0);
    assert!(rt; instances.login(1) == None);
    Ok(())
}
