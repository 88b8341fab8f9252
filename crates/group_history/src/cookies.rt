//! A pull's cookie, and the order of cookies.
//!
//! A cookie is null, a number, a text, or an object whose field `order` is a number or a text. It is
//! kept as its compact text, and beside it what it is compared by, so that no comparison reads the text
//! again. The type's invariant says that the two belong together: reading the text gives this very cookie.
ghost use Rattle.std.specs.Prelude.{◌≡◌, ◌≤◌, Some, IfOk};
ghost use Rattle.std.proofs.Common.{refl};
ghost use Rattle.std.specs.Cmp as laws;
ghost use Rattle.std.specs.Ordering.{eq_by_cmp};
ghost use Rattle.serde_json.specs.Data.{depth};
ghost use Rattle.serde_json.specs.View.{view};
ghost use Rattle.group_history.specs.Cookies.{Cookie, order_cmp, order_of, plain_order_of, cookie_of, null_cookie};
ghost use Rattle.group_history.specs.Orders.{order_po, order_cmp_total};

use crate::json::is_whole;
use crate::texts::Text;
use serde_json::Value;
use std::alloc::{AllocError, Global};
use std::cmp::Ordering;
use std::marker::Model;

/// What a cookie is compared by: null is below every number, and every number below every text.
#[derive(Clone)]
pub enum Order {
    Null,
    /// Whole, from -2^63 to 2^64 - 1.
    Number(i128),
    /// Texts are compared by their bytes.
    Text(Text),
}

impl Drop for Order {
    fn drop(self) {
        match self {
            Order::Null | Order::Number(_) => {}
            Order::Text(text) => drop(text),
        }
    }
}

impl PartialEq for Order {
    ghost eq = { eq_by_cmp order_cmp };

    ghost laws = { laws.partial_equiv_from_equiv (laws.eq_by_cmp_equiv order_cmp_total) };

    fn eq(&self, other: &Self) -> bool {
        self.cmp(other).is_eq()
    }
}

impl Eq for Order {
    ghost laws = { laws.eq_by_cmp_equiv order_cmp_total };
}

impl PartialOrd for Order {
    ghost partial_cmp = { λ x y. Some (order_cmp x y) };

    ghost laws = { order_po };

    fn partial_cmp(&self, other: &Self) -> Option<Ordering> {
        Some(self.cmp(other))
    }
}

impl Ord for Order {
    ghost cmp = { order_cmp };

    ghost total = { order_cmp_total };

    ghost matches_partial_cmp = { λ x y. refl };

    ghost matches_eq = { λ x y. refl };

    fn cmp(&self, other: &Self) -> Ordering {
        match (self, other) {
            (Order::Null, Order::Null) => Ordering::Equal,
            (Order::Null, _) => Ordering::Less,
            (_, Order::Null) => Ordering::Greater,
            (Order::Number(a), Order::Number(b)) => a.cmp(b),
            (Order::Number(_), Order::Text(_)) => Ordering::Less,
            (Order::Text(_), Order::Number(_)) => Ordering::Greater,
            (Order::Text(a), Order::Text(b)) => a.cmp(b),
        }
    }
}

/// A cookie: null, a number, a text, or an object whose field `order` is a number or a text (Pull Endpoint Reference,
/// "cookie"). It may nest 126 deep, since it stands in a body that nests 127, so it is no `Json`.
#[derive(Clone)]
pub struct Cookie {
    text: Text,
    order: Order,
}

impl Drop for Cookie {
    fn drop(self) {
        let Cookie { text, order } = self;
        drop(text);
        drop(order);
    }
}

impl Model for Cookie {
    ghost use Rattle.std.specs.Prelude.{◌≡◌, Some};
    ghost use Rattle.group_history.specs.Cookies.{Cookie, cookie_at};

    ghost Value = { Cookie };

    ghost view = { λ c. record { text = c.text; order = c.order } };

    ghost invariant = { λ c. cookie_at c.text ≡ Some (record { text = c.text; order = c.order }) };
}

fn plain_order_of(alloc: Global, value: &Value) -> Result<Option<Order>, AllocError>
    ensures { IfOk result (λ o. o ≡ plain_order_of (view value.now)) }
{
    match value {
        Value::Number(number) => match number.as_i128() {
            Some(whole) => Ok(Some(Order::Number(whole))),
            None => Ok(None),
        },
        Value::String(text) => Ok(Some(Order::Text(Text::new(alloc, text.as_str())?))),
        _ => Ok(None),
    }
}

fn order_of(alloc: Global, value: &Value) -> Result<Option<Order>, AllocError>
    ensures { IfOk result (λ o. o ≡ order_of (view value.now)) }
{
    match value {
        Value::Null => Ok(Some(Order::Null)),
        Value::Number(_) | Value::String(_) => plain_order_of(alloc, value),
        Value::Bool(_) | Value::Array(_) => Ok(None),
        Value::Object(_) => match value.get("order") {
            Some(order) => plain_order_of(alloc, order),
            None => Ok(None),
        },
    }
}

impl Cookie {
    /// The cookie null, with which a group opens.
    pub fn null(alloc: Global) -> Result<Cookie, AllocError>
        ensures { IfOk result (λ c. c ≡ null_cookie) }
    {
        Ok(Cookie {
            text: Text::new(alloc, "null")?,
            order: Order::Null,
        })
    }

    /// The cookie that a JSON value is; none where a number in it isn't whole, or where it has no order.
    #[tactic(auto, unfolding(crate::specs::Cookies::cookie_of))]
    pub fn of(alloc: Global, value: &Value) -> Result<Option<Cookie>, AllocError>
        requires { depth (view value.now) ≤ 126 }
        ensures { IfOk result (λ o. o ≡ cookie_of (view value.now)) }
    {
        if !is_whole(value) {
            return Ok(None);
        }
        let Some(order) = order_of(alloc, value)? else {
            return Ok(None);
        };
        let text = Text::from_string(value.to_string(alloc)?)?;
        Ok(Some(Cookie { text, order }))
    }

    /// The compact text.
    pub fn text(&self) -> &str
        ensures { result.now ≡ self.now.text }
    {
        self.text.as_str()
    }
}

/// How two cookies stand to each other by what they are compared by, an object by its `order`. They may be equal in
/// order and have different texts. The rule is this project's.
pub fn cookie_cmp(a: &Cookie, b: &Cookie) -> Ordering
    ensures { result ≡ order_cmp a.now.order b.now.order }
{
    a.order.cmp(&b.order)
}
