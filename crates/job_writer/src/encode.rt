// The encoding of a job, field after field.
ghost use Rattle.std.specs.Prelude.{◌≡◌, ◌≤◌};
ghost use Rattle.number.specs.Read.{write_many};
ghost use Rattle.number.specs.Number.{write_number};
ghost use Rattle.number.specs.Signed.{field_of, write_signed};
ghost use Rattle.number.specs.Inner.{Room};
ghost use Rattle.job.specs.Announced.{announcing};
ghost use Rattle.job.specs.Curves.{radius_of};
ghost use Rattle.job.specs.Inner.{UnitsInUse};
ghost use Rattle.job_writer.specs.Write.{write_three, write_body, write_unit, write_widths, write_vehicle, write_start, write_element, write_path, write_job};
ghost use Rattle.job_writer.specs.Encoding.{appended, nothing};
ghost use Rattle.job_writer.specs.Inner.{Allowed, VehicleFits, ElementFits, ElementsFit, PathFits, Accepted};

use job::{Body, Curve, Element, Form, Job, Side, Start, Unit, Vehicle};

// The bytes of a record so far, and their number.
// Kept: a rule of the project needs an array with its count: there is no heap; no record is over 520 bytes.
#[derive(Clone, Copy)]
pub struct Encoded {
    pub bytes: [u8; 520],
    pub at: usize,
}

impl Encoded {
    fn put_number(&mut self, x: u32)
        requires { Room (write_number x) self.old.at 520 }
        ensures { self.new ≡ appended self.old (write_number x) }
    {
        self.at = number::write(&mut self.bytes, self.at, x);
    }

    fn put_signed(&mut self, z: i32)
        requires { Room (write_signed z) self.old.at 520 }
        ensures { self.new ≡ appended self.old (write_signed z) }
    {
        self.put_number(number::field_of(z));
    }

    fn put_three(&mut self, x: u32, y: u32, z: u32)
        requires { Room (write_three x y z) self.old.at 520 }
        ensures { self.new ≡ appended self.old (write_three x y z) }
    {
        self.put_number(x);
        self.put_number(y);
        self.put_number(z);
    }

    // A short job's bodies are not written.
    fn put_body(&mut self, form: Form, b: Body)
        requires { Room (write_body form b) self.old.at 520 }
        ensures { self.new ≡ appended self.old (write_body form b) }
    {
        if form == Form::Long {
            self.put_three(b.front_overhang, b.rear_overhang, b.half_width);
        }
    }

    fn put_unit(&mut self, form: Form, u: Unit)
        requires { Room (write_unit form u) self.old.at 520 }
        ensures { self.new ≡ appended self.old (write_unit form u) }
    {
        self.put_number(u.wheelbase);
        self.put_signed(u.hitch);
        self.put_signed(u.fold);
        self.put_body(form, u.body);
    }

    fn put_units(&mut self, form: Form, units: &[Unit])
        requires { Room (write_many (write_unit form) units.now) self.old.at 520 }
        ensures { self.new ≡ appended self.old (write_many (write_unit form) units.now) }
    {
        for u in units {
            self.put_unit(form, *u);
        }
    }

    fn put_widths(&mut self, v: Vehicle)
        requires { Room (write_widths v) self.old.at 520 }
        ensures { self.new ≡ appended self.old (write_widths v) }
    {
        self.put_three(v.overhang, v.front_half_width, v.rear_half_width);
    }

    fn put_start(&mut self, s: Start)
        requires { Room (write_start s) self.old.at 520 }
        ensures { self.new ≡ appended self.old (write_start s) }
    {
        self.put_signed(s.x);
        self.put_signed(s.y);
        self.put_signed(s.gx);
        self.put_signed(s.gy);
    }

    fn put_element(&mut self, e: Element)
        requires { ElementFits e self.old.at }
        ensures { self.new ≡ appended self.old (write_element e) }
    {
        self.put_number(e.length);
        self.put_number(radius_field(e.curve));
    }

    fn put_elements(&mut self, elements: &[Element])
        requires { ElementsFit elements.now self.old.at }
        ensures { self.new ≡ appended self.old (write_many write_element elements.now) }
    {
        for e in elements {
            self.put_element(*e);
        }
    }

    fn put_vehicle(&mut self, v: Vehicle)
        requires { VehicleFits v self.old.at }
        ensures { self.new ≡ appended self.old (write_vehicle v) }
    {
        self.put_number(announcing(v.form, v.count));
        self.put_units(v.form, &v.units[..v.count]);
        self.put_widths(v);
    }

    fn put_path(&mut self, j: Job)
        requires { PathFits j self.old.at }
        ensures { self.new ≡ appended self.old (write_path j) }
    {
        self.put_number(j.step);
        // Kept: the new form is no plainer: u32 has no From of a usize, and try_from would answer an error that cannot come.
        self.put_number(j.count as u32);
        self.put_elements(&j.elements[..j.count]);
    }
}

// The field of a radius: positive to the right.
fn radius_field(curve: Curve) -> u32
    requires { Allowed curve }
    ensures { result ≡ field_of (radius_of curve) }
{
    match curve {
        Curve::Straight => 0,
        Curve::Arc(Side::Right, radius) => 2 * radius,
        Curve::Arc(Side::Left, radius) => 2 * radius - 1,
    }
}

// The number that announces so many units of a short or a long job.
fn announcing(form: Form, count: usize) -> u32
    requires { UnitsInUse count }
    ensures { result ≡ announcing form count }
{
    // Kept: the cast, for the reason given in `put_path`.
    let n = count as u32;
    match form {
        Form::Short => n,
        Form::Long => n + 10,
    }
}

// A job without a fault, encoded.
pub(crate) fn encode_job(j: Job) -> Encoded
    requires { Accepted j }
    ensures whole { result ≡ appended nothing (write_job j) }
    ensures within { result.at ≤ 520 }
{
    let mut e = Encoded {
        bytes: [0; 520],
        at: 0,
    };
    e.put_vehicle(j.vehicle);
    e.put_start(j.start);
    e.put_path(j);
    e
}
