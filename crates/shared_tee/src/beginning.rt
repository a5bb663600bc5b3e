//! What a runtime takes before its volume is opened. Where memory lacks for that, no board was touched.

ghost use Rattle.std.specs.Prelude.{◌≤◌, IfOk, length};
ghost use Rattle.app_api.specs.Hosts.{HostsFit};
ghost use Rattle.tee_base.specs.declared.limits.TheConstants.{MAX_HOSTS};
ghost use Rattle.shared_tee.specs.Beginning.{IsRoomFor};
ghost use Rattle.shared_tee.specs.Making.{AreFresh};

use crate::making::Begun;
use crate::pass::Pass;
use alone::AppLog;
use app_api::{Application, Host};
use app_side::AppSide;
use shared_parts::{CLIENTS, HostedApp};
use std::alloc::Global;
use std::collections::VecDeque;
use store_api::Volume;
use tee_base::NoMemory;
use turn_cell::TurnCell;

/// The hosts' applications, none of which has run anything yet.
fn begin_sides<A: Application>(
    alloc: Global,
    hosts: Vec<Host<A>>,
    seed: [u8; 32],
) -> Result<Vec<AppSide<A>>, NoMemory>
    requires { length hosts.items ≤ MAX_HOSTS }
    ensures { IfOk result (λ sides. AreFresh seed 0 hosts.items sides.items) }
{
    let mut rest = VecDeque::from(hosts);
    let mut sides = Vec::new(alloc);
    while let Some(host) = rest.pop_front() {
        let index = sides.len() as u8;
        sides.push(AppSide::new(alloc, host, index, seed)?)?;
    }
    Ok(sides)
}

/// What a runtime takes before its volume is opened: the applications, and room for their cells, passes and logs.
#[derive(Drop)]
pub(crate) struct Room<V: Volume, A: Application> {
    pub(crate) sides: Vec<AppSide<A>>,
    pub(crate) begun: Vec<Begun<V, A>>,
    pub(crate) cells: Vec<TurnCell<HostedApp<V, A>>>,
    pub(crate) passes: Vec<Pass<V, A>>,
    pub(crate) logs: Vec<AppLog>,
}

impl<V: Volume, A: Application> Room<V, A> {
    /// The room for these hosts.
    pub(crate) fn new(
        alloc: Global,
        hosts: Vec<Host<A>>,
        seed: [u8; 32],
    ) -> Result<Room<V, A>, NoMemory>
        requires { HostsFit hosts.items }
        ensures { IfOk result (λ room. IsRoomFor hosts.items seed room) }
    {
        let apps = hosts.len();
        let begun = Vec::with_capacity(alloc, apps)?;
        let cells = Vec::with_capacity(alloc, apps)?;
        let passes = Vec::with_capacity(alloc, CLIENTS * apps)?;
        let logs = Vec::with_capacity(alloc, apps)?;
        let sides = begin_sides(alloc, hosts, seed)?;
        Ok(Room {
            sides,
            begun,
            cells,
            passes,
            logs,
        })
    }
}
