// The lines that are actions: each verb names its numbers, in their order, as fields of the action. The fields that a
// kind does not read are wild numbers.
use crate::report::Unfit;
use crate::text::{Line, exactly};
use rules::{Action, Kind};

const WILD: u32 = u32::MAX;

const WILD_ACTION: Action = Action {
    kind: WILD,
    actor: WILD,
    reference: WILD,
    reqtype: WILD,
    status: WILD,
    seller: WILD,
    related: WILD,
    start: WILD,
    stop: WILD,
    flags: WILD,
    price: WILD,
    time: WILD,
    offset: WILD,
    length: WILD,
    path: WILD,
};

// The path where a line names none.
const PATH_UNNAMED: u32 = 1;

// An action whose profile is the whole of the words lent. Where none comes, the offset is not read.
fn with_profile(action: Action, length: u32) -> Action {
    let offset = if length == 0 { WILD } else { 0 };
    Action {
        offset,
        length,
        ..action
    }
}

// The path, where it comes.
fn path_named(fields: &[u32]) -> Result<u32, Unfit> {
    match fields {
        [] => Ok(PATH_UNNAMED),
        [path] => Ok(*path),
        _ => Err(Unfit::Unreadable),
    }
}

// All fields, in order.
fn whole_action(fields: &[u32]) -> Result<Action, Unfit> {
    let &[
        kind,
        actor,
        reference,
        reqtype,
        status,
        seller,
        related,
        start,
        stop,
        flags,
        price,
        time,
        offset,
        length,
        ref path @ ..,
    ] = fields
    else {
        return Err(Unfit::Unreadable);
    };
    Ok(Action {
        kind,
        actor,
        reference,
        reqtype,
        status,
        seller,
        related,
        start,
        stop,
        flags,
        price,
        time,
        offset,
        length,
        path: path_named(path)?,
    })
}

fn submit(fields: &[u32]) -> Result<Action, Unfit> {
    let &[
        actor,
        reqtype,
        seller,
        related,
        start,
        stop,
        flags,
        price,
        ref path @ ..,
    ] = fields
    else {
        return Err(Unfit::Unreadable);
    };
    Ok(Action {
        kind: u32::from(Kind::Submit),
        actor,
        reqtype,
        seller,
        related,
        start,
        stop,
        flags,
        price,
        path: path_named(path)?,
        ..WILD_ACTION
    })
}

fn status(kind: Kind, fields: &[u32]) -> Result<Action, Unfit> {
    let [actor, reference, status, price] = exactly::<4>(fields)?;
    Ok(Action {
        kind: u32::from(kind),
        actor,
        reference,
        status,
        price,
        ..WILD_ACTION
    })
}

fn named(kind: Kind, fields: &[u32]) -> Result<Action, Unfit> {
    let [actor, reference] = exactly::<2>(fields)?;
    Ok(Action {
        kind: u32::from(kind),
        actor,
        reference,
        ..WILD_ACTION
    })
}

fn clock(fields: &[u32]) -> Result<Action, Unfit> {
    let [actor, time] = exactly::<2>(fields)?;
    Ok(Action {
        kind: u32::from(Kind::Clock),
        actor,
        time,
        ..WILD_ACTION
    })
}

fn post(fields: &[u32]) -> Result<Action, Unfit> {
    let [actor, path, start, stop] = exactly::<4>(fields)?;
    Ok(Action {
        kind: u32::from(Kind::Post),
        actor,
        start,
        stop,
        path,
        ..WILD_ACTION
    })
}

// The action of a line; none where its verb names none.
pub fn action_asked(line: &Line) -> Result<Option<Action>, Unfit> {
    let fields = line.fields.as_slice();
    let action = match line.verb {
        "submit" => submit(fields)?,
        "seller" => status(Kind::SellerStatus, fields)?,
        "customer" => status(Kind::CustomerStatus, fields)?,
        "approve" => named(Kind::Approve, fields)?,
        "reduce" => named(Kind::Reduce, fields)?,
        "lapse" => named(Kind::Lapse, fields)?,
        "post" => post(fields)?,
        "clock" => return Ok(Some(clock(fields)?)),
        "action" => return Ok(Some(whole_action(fields)?)),
        _ => return Ok(None),
    };
    Ok(Some(with_profile(action, u32::try_from(line.profile.len())?)))
}
